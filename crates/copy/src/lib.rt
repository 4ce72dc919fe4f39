// A copy of all that a root reaches into a second log: the tests, then the root.
// The first log and the sectors that wait behind it are two runs that are read as one, as in `two_runs`.
#![tactic(auto)]

ghost use Rattle.std.specs.Prelude.{◌≡◌};
ghost use Rattle.copying.specs.Copy.{copied, copy_allowed, copy_of};

use refusal::Refusal;
use two_runs::Runs;
use visit::Walked;
use walk::MOST_ALLOWANCE;

// Test 3 of a copy, by the lengths of all that is lent as sectors.
fn are_allowed(log: usize, waiting: usize, second: usize) -> bool
    ensures { result ≡ copy_allowed log waiting second }
{
    if !lookup::are_allowed(log, waiting) {
        return false;
    }
    lookup::is_allowed(second)
}

// Copies all that a root reaches into a second log, for any log, waiting part, second log, date, score and allowance.
pub fn copy<'a>(
    log: &'a [u8],
    waiting: &'a [u8],
    second: &mut [u8],
    date: &[u8],
    score: &[u8; 20],
    allowance: u64,
) -> Walked
    ensures { copied result second.new ≡ copy_of log.now waiting.now date.now score.now second.old allowance }
{
    if !are_allowed(log.len(), waiting.len(), second.len()) {
        return Walked {
            visits: 0,
            end: Err(Refusal::LogLength),
        };
    }
    if !sector::is_date(date) {
        return Walked {
            visits: 0,
            end: Err(Refusal::Date),
        };
    }
    if MOST_ALLOWANCE < allowance {
        return Walked {
            visits: 0,
            end: Err(Refusal::Allowance),
        };
    }
    let end = lookup::border(log, waiting);
    copy_root::copy_root(
        Runs { log, end, waiting },
        second,
        date,
        score,
        allowance as usize,
    )
}
