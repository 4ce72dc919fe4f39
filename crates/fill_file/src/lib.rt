// Reading a file into a lent buffer: the tests, then its leaves.
#![tactic(auto)]

ghost use Rattle.std.specs.Prelude.{◌≡◌};
ghost use Rattle.fill.specs.Fill.{fill_outcome, fill_of};

use entry::{ENTRY, SCORE};
use fill::Filled;
use refusal::Refusal;
use two_runs::Runs;

// Fills d with the bytes of a file from an offset on: any log, waiting part, entry, offset and buffer.
pub fn fill<'a>(log: &'a [u8], waiting: &'a [u8], entry: &[u8], offset: u64, d: &mut [u8]) -> Filled
    ensures { fill_outcome result d.new ≡ fill_of log.now waiting.now entry.now offset d.old }
{
    if !lookup::are_allowed(log.len(), waiting.len()) {
        return Filled {
            count: 0,
            stop: Err(Refusal::LogLength),
        };
    }
    if !file::is_readable(entry) {
        return Filled {
            count: 0,
            stop: Err(Refusal::Entry),
        };
    }
    let e = entry::entry_at(entry, 0);
    if e.size <= offset {
        return Filled {
            count: 0,
            stop: Err(Refusal::Offset),
        };
    }
    let end = lookup::border(log, waiting);
    fill::fill_leaves(
        Runs { log, end, waiting },
        e,
        &entry[SCORE..ENTRY],
        offset,
        d,
    )
}
