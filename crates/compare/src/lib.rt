// Counting the differences between two directory trees: the tests, then the two given entries. The blocks lie in two runs of sectors that
// are read as one, as in `two_runs`.
#![tactic(auto)]

ghost use Rattle.std.specs.Prelude.{◌≡◌};
ghost use Rattle.comparison.specs.Differences.{directory_allowed, differences_of};

use comparison::Compared;
use refusal::Refusal;
use two_runs::Runs;
use walk::MOST_ALLOWANCE;

// Whether bytes are an active, well-formed directory entry.
fn is_directory(x: &[u8]) -> bool
    ensures { result ≡ directory_allowed x.now }
{
    if !file::is_readable(x) {
        return false;
    }
    let e = entry::entry_at(x, 0);
    e.directory
}

// Counts the differences between two directory entries, for any log, waiting part, entries and allowance.
pub fn differences<'a>(
    log: &'a [u8],
    waiting: &'a [u8],
    x: &[u8],
    y: &[u8],
    allowance: u64,
) -> Compared
    ensures { result ≡ differences_of log.now waiting.now x.now y.now allowance }
{
    if !lookup::are_allowed(log.len(), waiting.len()) {
        return compare_below::refused(Refusal::LogLength);
    }
    if MOST_ALLOWANCE < allowance {
        return compare_below::refused(Refusal::Allowance);
    }
    if !is_directory(x) {
        return compare_below::refused(Refusal::Entry);
    }
    if !is_directory(y) {
        return compare_below::refused(Refusal::Entry);
    }
    let end = lookup::border(log, waiting);
    compare_below::compare_entries(Runs { log, end, waiting }, 0, x, y, allowance as usize)
}
