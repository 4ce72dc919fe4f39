// A copy of all that a root reaches into another log, its outcome as numbers.
#![tactic(auto)]

ghost use Rattle.std.specs.Prelude.{◌≡◌};
ghost use Rattle.copying.specs.Copy.{copy_of};
ghost use Rattle.copy_calls.specs.Copies.{transfer, copy_result};

use walk_calls::ABOVE_VISITS;

// Copies all that a root reaches, in a log and the sectors that wait behind its used part, into a second log, with a date. The result is
// the number of the refusal, 0 for none, then the visits in 20 bits, then the first log's first doubtful sector for 12.
pub fn copy<'a>(
    log: &'a [u8],
    waiting: &'a [u8],
    second: &mut [u8],
    date: &[u8],
    score: &[u8; 20],
    allowance: u64,
) -> u64
    ensures { transfer result second.new ≡ copy_result (copy_of log.now waiting.now date.now score.now second.old allowance) }
{
    let copied = copy::copy(log, waiting, second, date, score, allowance);
    let end = copied.end;
    let number = walk::number(end);
    let sector = walk_calls::end_sector(end);
    number as u64 + 256 * (copied.visits as u64 + ABOVE_VISITS * (sector as u64))
}
