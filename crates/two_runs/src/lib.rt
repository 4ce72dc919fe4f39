// Sectors of two runs: the first `end` sectors of a log and the sectors that wait behind them, read as one; and the end of a run's used part.
#![tactic(auto)]

ghost use Rattle.std.specs.Prelude.{◌≡◌, ◌<◌, length};
ghost use Rattle.block.specs.Log.{sectors, at, used};
ghost use Rattle.two_runs.specs.Runs.{read_as_one, sectors_of_both, EndsWithin};

use block::SECTOR;
use sector_number::SectorNumber;

// Two runs of sectors that are read as one: the first `end` sectors of a log, and the sectors that wait behind them.
#[derive(Clone, Copy)]
pub struct Runs<'a> {
    pub log: &'a [u8],
    pub end: SectorNumber,
    pub waiting: &'a [u8],
}

// The two runs as one value.
pub fn side_by_side<'a>(log: &'a [u8], end: SectorNumber, waiting: &'a [u8]) -> Runs<'a>
    ensures end { result.end ≡ end }
    ensures log { result.log.now ≡ log.now }
    ensures waiting { result.waiting.now ≡ waiting.now }
{
    Runs { log, end, waiting }
}

// Sector n of one run.
fn sector_of(log: &[u8], n: SectorNumber) -> &[u8]
    requires { n.0 < sectors (length log.now) }
    ensures { result.now ≡ at log.now n.0 }
{
    let from = SECTOR * n.0;
    let to = from + SECTOR;
    &log[from..to]
}

// Sector n of both: the one place where it is told in which run a sector lies.
pub fn sector_at<'a>(runs: Runs<'a>, n: SectorNumber) -> &'a [u8]
    requires { EndsWithin runs × (n.0 < sectors_of_both runs) }
    ensures { result.now ≡ at (read_as_one runs.entry) n.0 }
{
    if n.0 < runs.end.0 {
        return sector_of(runs.log, n);
    }
    let k = n.0 - runs.end.0;
    sector_of(runs.waiting, SectorNumber(k))
}

// One past the last sector of a run that isn't blank.
pub fn used_part(log: &[u8]) -> SectorNumber
    ensures { result.0 ≡ used log.now }
{
    for n in (0..log.len() / SECTOR).rev() {
        if !buffer::is_zero(sector_of(log, SectorNumber(n))) {
            return SectorNumber(n + 1);
        }
    }
    SectorNumber(0)
}
