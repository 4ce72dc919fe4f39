// A copy of all that a root reaches into another log.
ghost use Rattle.std.specs.Prelude.{◌≡◌};
ghost use Rattle.copying.specs.Copy.{copy_of};
ghost use Rattle.copy_calls.specs.Copies;

// Copies all that a root reaches, in a log and the sectors that wait behind its used part, into a second log, with a date. The result is
// the number of the refusal, 0 for none, then the visits in 20 bits, then the first log's first doubtful sector for 12.
#[unsafe(no_mangle)]
pub extern "C" fn skywimple_copy<'a>(
    log: &'a [u8],
    waiting: &'a [u8],
    second: &mut [u8],
    date: &[u8],
    score: &[u8; 20],
    allowance: u64,
) -> u64
    ensures { Copies.transfer result second.new ≡ Copies.copy_result (copy_of log.now waiting.now date.now score.now second.old allowance) }
{
    copy_calls::copy(log, waiting, second, date, score, allowance)
}
