// Reading a file through its hash tree: where the run of bytes at an offset lies, in the log, in the sectors that wait behind its used part, or in the
// lent page of zeros.
#![tactic(auto)]

ghost use Rattle.std.specs.Prelude.{◌≡◌, ◌*◌, ◌<◌};
ghost use Rattle.block.specs.Log.{addressable};
ghost use Rattle.file.specs.File.{page_allowed, entry_readable, located, answer_of};
ghost use Rattle.file.specs.File.{split as splitAt};
ghost use Rattle.sector.specs.Sector.{sector_length};

use entry::ENTRY;
use leaf::Extent;
use refusal::Refusal;
use sector::SECTOR;
use sector_number::SectorNumber;
use two_runs::Runs;
pub use way_down::descend;

// Where it lies in what is lent: at a byte of the log or of the waiting part, or at the front of the page.
#[derive(Clone, Copy)]
pub enum Located {
    Stored { at: usize, length: usize },
    Waiting { at: usize, length: usize },
    Zeros { length: usize },
}

// The run in the part in which it lies: before the end of the log's sectors in the log, from there on in the waiting part.
fn split(end: SectorNumber, run: Result<Extent, Refusal>) -> Result<Located, Refusal>
    requires { end.0 < addressable }
    ensures { result ≡ splitAt (sector_length * end.0) run }
{
    let border = SECTOR * end.0;
    match run? {
        Extent::Stored { at, length } => {
            if at < border {
                return Ok(Located::Stored { at, length });
            }
            Ok(Located::Waiting {
                at: at - border,
                length,
            })
        }
        Extent::Zeros { length } => Ok(Located::Zeros { length }),
    }
}

// Whether a page is not empty and all zeros.
pub fn is_page(page: &[u8]) -> bool
    ensures { result ≡ page_allowed page.now }
{
    if page.len() == 0 {
        return false;
    }
    buffer::is_zero(page)
}

// Whether bytes are an active, well-formed entry.
pub fn is_readable(b: &[u8]) -> bool
    ensures { result ≡ entry_readable b.now }
{
    if b.len() != ENTRY {
        return false;
    }
    let e = entry::entry_at(b, 0);
    if !e.active {
        return false;
    }
    entry::is_well_formed(e)
}

// Where the bytes of a file at an offset lie.
pub fn locate<'a>(
    log: &'a [u8],
    waiting: &'a [u8],
    page: &[u8],
    entry: &[u8],
    offset: u64,
) -> Result<Located, Refusal>
    ensures { result ≡ located log.now waiting.now page.now entry.now offset }
{
    if !lookup::are_allowed(log.len(), waiting.len()) {
        return Err(Refusal::LogLength);
    }
    if !is_page(page) {
        return Err(Refusal::Page);
    }
    if !is_readable(entry) {
        return Err(Refusal::Entry);
    }
    let e = entry::entry_at(entry, 0);
    if e.size <= offset {
        return Err(Refusal::Offset);
    }
    let end = lookup::border(log, waiting);
    let look = way_down::descend(
        Runs { log, end, waiting },
        e,
        offset,
        &entry[entry::SCORE..ENTRY],
    );
    split(end, leaf::run_in(look, page.len(), e, offset))
}

// The number that goes with the bytes: 0 for none.
pub fn number(run: Result<Located, Refusal>) -> u8
    ensures { result ≡ answer_of run }
{
    match run {
        Ok(_) => 0,
        Err(why) => refusal::number(why),
    }
}
