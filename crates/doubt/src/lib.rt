// Why a block is missing: the end of the used part of a log and the sectors that wait behind it, and the first doubtful sector before it.
#![tactic(auto)]

ghost use Rattle.std.specs.Prelude.{◌≡◌};
ghost use Rattle.block.specs.Log.{used};
ghost use Rattle.sector_log.specs.LookUp.{absence, first_doubtful};
ghost use Rattle.two_runs.specs.Runs.{read_as_one, EndsWithin};

use refusal::Refusal;
use sector::SECTOR;
use sector_number::SectorNumber;
use two_runs::Runs;

// The first doubtful sector, or the end of the used part, `last`, where there is none: past a sound block at once, past nothing else.
pub fn first_doubtful<'a>(runs: Runs<'a>, last: SectorNumber) -> SectorNumber
    requires { EndsWithin runs × (last.0 ≡ used (read_as_one runs)) }
    ensures { result.0 ≡ first_doubtful (read_as_one runs.entry) }
{
    let mut n: usize = 0;
    while n < last.0 {
        let Some(b) = reader::sound_at(runs, SectorNumber(n)) else {
            return SectorNumber(n);
        };
        n += block::parts_of(b.label, b.size);
    }
    last
}

// The end of the used part of both: among the waiting sectors if one of them isn't blank, else among the log's.
pub fn used_both<'a>(runs: Runs<'a>) -> SectorNumber
    requires { EndsWithin runs }
    ensures { result.0 ≡ used (read_as_one runs.entry) }
{
    let waits = reader::used_part(runs.waiting);
    if waits.0 == 0 {
        let to = SECTOR * runs.end.0;
        return reader::used_part(&runs.log[0..to]);
    }
    let last = runs.end.0 + waits.0;
    SectorNumber(last)
}

// Why a block that wasn't found is missing: not known if any sector is doubtful, with the first one's number, else not held.
pub fn why_absent<'a>(runs: Runs<'a>) -> Refusal
    requires { EndsWithin runs }
    ensures { result ≡ absence (read_as_one runs.entry) }
{
    let last = used_both(runs);
    let n = first_doubtful(runs, last);
    if n.0 < last.0 {
        return Refusal::NotKnown(n);
    }
    Refusal::NotHeld
}
