// The index beside a log: look-up by it, and rebuilding, as numbers.
#![tactic(auto)]

ghost use Rattle.std.specs.Prelude.{◌≡◌};
ghost use Rattle.hint.specs.Hint.{look_up_by_asked};
ghost use Rattle.hint.specs.Rebuilt.{rebuilding_number, rebuilt_asked};
ghost use Rattle.index_calls.specs.Hints.{SmallLook, look_result, rebuilt_index, rebuild_result};

use block::Block;
use refusal::Refusal;

// What stands above a length, which takes 16 bits, is so many times itself.
pub const ABOVE_LENGTH: u64 = 65536;

// A look-up in one number: the size of the block above the number, its first sector above both; a refusal tells its sector there.
fn look_result(look: Result<Block, Refusal>) -> u64
    requires { SmallLook look }
    ensures { result ≡ look_result look }
{
    match look {
        Ok(b) => 256 * (b.size as u64 + ABOVE_LENGTH * (b.first.0 as u64)),
        Err(why) => {
            refusal::number(why) as u64 + 256 * (ABOVE_LENGTH * (refusal::told_sector(why) as u64))
        }
    }
}

// Look-up by index of a score and type, in a log and what waits behind its used part. The result has the number in the lowest 8 bits, the size of the
// block in the 16 above, and its first sector above both; for 12 the first doubtful sector stands there.
pub fn look_up_by<'a>(
    log: &'a [u8],
    waiting: &'a [u8],
    index: &[u8],
    kind: u8,
    score: &[u8; 20],
) -> u64
    ensures { result ≡ look_result (look_up_by_asked log.now waiting.now index.now kind score.now) }
{
    look_result(index_lookup::ask_by(log, waiting, index, kind, score))
}

// The number of a rebuilding: 0 where it is done.
fn rebuilding_number(answer: Result<(), Refusal>) -> u32
    ensures { result ≡ rebuilding_number answer }
{
    match answer {
        Ok(()) => 0,
        Err(why) => refusal::number(why) as u32,
    }
}

// Rebuilds the index from the log alone: it enters every sound block, as far as its bucket has places. The result is the number.
pub fn rebuild(log: &[u8], index: &mut [u8]) -> u32
    ensures { rebuilt_index result index.new ≡ rebuild_result (rebuilt_asked log.now index.old) }
{
    rebuilding_number(rebuild::rebuild(log, index))
}
