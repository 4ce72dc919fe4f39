// Trees: the run of a file's bytes at an offset, and a buffer filled with a file's bytes. Each is of a log and of the sectors that wait
// behind its used part.
#![tactic(auto)]

ghost use Rattle.std.specs.Prelude.{◌≡◌, ◌≤◌};
ghost use Rattle.file.specs.File.{located};
ghost use Rattle.fill.specs.Fill.{fill_of};
ghost use Rattle.refusal.specs.Number.{told_sector};
ghost use Rattle.results.specs.Sizes.{most_both};
ghost use Rattle.tree_calls.specs.Tree.{packed, stop_sector, filled_up, fill_result};

use file::Located;
use index_calls::ABOVE_LENGTH;
use refusal::Refusal;

// A refusal packed as a run is: its number, and the sector that it tells of in the place of a start.
fn refused(why: Refusal) -> u64
    requires { told_sector why ≤ most_both }
    ensures { result ≡ packed (Err why) }
{
    let number = refusal::number(why);
    let sector = refusal::told_sector(why);
    number as u64 + 256 * (4 * (ABOVE_LENGTH * (sector as u64)))
}

// The sector that the end of filling tells of, 0 where it tells of none.
fn stop_sector(stop: Result<(), Refusal>) -> usize
    ensures { result ≡ stop_sector stop }
{
    match stop {
        Ok(()) => 0,
        Err(why) => refusal::told_sector(why),
    }
}

// Where the bytes of a file at an offset lie, packed into one number: above the number of the refusal, which takes 8 bits, 2 bits for the
// slice, 0 for the log, 1 for the waiting part and 2 for the page, then the run's length in 16 bits, then the byte of the slice where it
// starts, or for 12 the first doubtful sector.
pub fn locate<'a>(log: &'a [u8], waiting: &'a [u8], page: &[u8], entry: &[u8], offset: u64) -> u64
    ensures { result ≡ packed (located log.now waiting.now page.now entry.now offset) }
{
    let located = file::locate(log, waiting, page, entry, offset);
    match located {
        Ok(run) => match run {
            Located::Stored { at, length } => {
                256 * (4 * (length as u64 + ABOVE_LENGTH * (at as u64)))
            }
            Located::Waiting { at, length } => {
                256 * (1 + 4 * (length as u64 + ABOVE_LENGTH * (at as u64)))
            }
            Located::Zeros { length } => 256 * (2 + 4 * (length as u64)),
        },
        Err(why) => refused(why),
    }
}

// Fills the buffer with the bytes of a file from an offset on. The result is the number of the refusal, 0 for none, and 256 times the
// count of the bytes written to the buffer's front. The number that is lent is set to the first doubtful sector for 12, else to 0.
pub fn fill<'a>(
    log: &'a [u8],
    waiting: &'a [u8],
    entry: &[u8],
    offset: u64,
    buffer: &mut [u8],
    told: &mut u64,
) -> u64
    ensures { filled_up result buffer.new told.new ≡ fill_result (fill_of log.now waiting.now entry.now offset buffer.old) }
{
    let filled = fill_file::fill(log, waiting, entry, offset, buffer);
    let stop = filled.stop;
    let sector = stop_sector(stop);
    *told = sector as u64;
    (fill::number(stop) as u64) + 256 * (filled.count as u64)
}
