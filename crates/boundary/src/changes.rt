// What changed between two days: the first difference of two directory blocks, and the differences between two trees, of a log and of the
// sectors that wait behind its used part.
ghost use Rattle.std.specs.Prelude.{◌≡◌};
ghost use Rattle.difference.specs.Difference.{difference_of};
ghost use Rattle.comparison.specs.Differences.{differences_of};
ghost use Rattle.change_calls.specs.Changes;

// Where two directory blocks first differ, packed into one number: above the number of the refusal, which takes 8 bits, 2 bits for the
// block that has the entry, 0 for none, 1 for the first and 2 for the second, then the byte of that block where its 40 bytes start.
#[unsafe(no_mangle)]
pub extern "C" fn skywimple_difference(first: &[u8], second: &[u8]) -> u64
    ensures { result ≡ Changes.difference_packed (difference_of first.now second.now) }
{
    change_calls::difference(first, second)
}

// Counts the differences between two directory entries. The result is the number of the refusal, 0 for none, then the units in 20 bits,
// then the count. The number that is lent is set to the first doubtful sector for 12, else to 0.
#[unsafe(no_mangle)]
pub extern "C" fn skywimple_differences<'a>(
    log: &'a [u8],
    waiting: &'a [u8],
    first: &[u8],
    second: &[u8],
    allowance: u64,
    told: &mut u64,
) -> u64
    ensures { Changes.counts result told.new ≡ Changes.compared_result (differences_of log.now waiting.now first.now second.now allowance) }
{
    change_calls::differences(log, waiting, first, second, allowance, told)
}
