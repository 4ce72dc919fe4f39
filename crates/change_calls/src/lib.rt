// What changed between two days: the first difference of two directory blocks, and the differences between two trees, of a log and of the
// sectors that wait behind its used part.
#![tactic(auto)]

ghost use Rattle.std.specs.Prelude.{◌≡◌};
ghost use Rattle.difference.specs.Difference.{difference_of};
ghost use Rattle.comparison.specs.Differences.{differences_of};
ghost use Rattle.change_calls.specs.Changes.{difference_packed, counts, compared_result};

use difference::Difference;
use walk_calls::ABOVE_VISITS;

// Where two directory blocks first differ, packed into one number: above the number of the refusal, which takes 8 bits, 2 bits for the
// block that has the entry, 0 for none, 1 for the first and 2 for the second, then the byte of that block where its 40 bytes start.
pub fn difference(first: &[u8], second: &[u8]) -> u64
    ensures { result ≡ difference_packed (difference_of first.now second.now) }
{
    let located = difference::locate(first, second);
    match located {
        Ok(found) => match found {
            Difference::First { at } => 256 * (1 + 4 * (at as u64)),
            Difference::Second { at } => 256 * (2 + 4 * (at as u64)),
            Difference::Nowhere => 0,
        },
        Err(why) => refusal::number(why) as u64,
    }
}

// Counts the differences between two directory entries. The result is the number of the refusal, 0 for none, then the units in 20 bits,
// then the count. The number that is lent is set to the first doubtful sector for 12, else to 0.
pub fn differences<'a>(
    log: &'a [u8],
    waiting: &'a [u8],
    first: &[u8],
    second: &[u8],
    allowance: u64,
    told: &mut u64,
) -> u64
    ensures { counts result told.new ≡ compared_result (differences_of log.now waiting.now first.now second.now allowance) }
{
    let compared = compare::differences(log, waiting, first, second, allowance);
    let end = compared.end;
    let number = walk::number(end);
    let sector = walk_calls::end_sector(end);
    *told = sector as u64;
    number as u64 + 256 * (compared.units as u64 + ABOVE_VISITS * (compared.count as u64))
}
