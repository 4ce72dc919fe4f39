// The walk from a root, of a log and of the sectors that wait behind its used part; where a walk, a copy or a comparison ended.
#![tactic(auto)]

ghost use Rattle.std.specs.Prelude.{◌≡◌};
ghost use Rattle.walk.specs.Walk.{walk_of};
ghost use Rattle.walk_calls.specs.Walked.{end_sector, walk_result};

use refusal::Refusal;

// What stands above a count of visits or units, which takes 20 bits, is so many times itself.
pub const ABOVE_VISITS: u64 = 1048576;

// The sector that the end of a walk tells of, 0 where it tells of none.
pub fn end_sector(end: Result<(), Refusal>) -> usize
    ensures { result ≡ end_sector end }
{
    match end {
        Ok(()) => 0,
        Err(why) => refusal::told_sector(why),
    }
}

// Walks from a root score. The result is the number of the refusal, 0 for none, then the visits in 20 bits, then the first doubtful
// sector for 12.
pub fn walk<'a>(log: &'a [u8], waiting: &'a [u8], score: &[u8; 20], allowance: u64) -> u64
    ensures { result ≡ walk_result (walk_of log.now waiting.now score.now allowance) }
{
    let walked = walk::walk(log, waiting, score, allowance);
    let end = walked.end;
    let number = walk::number(end);
    let sector = end_sector(end);
    number as u64 + 256 * (walked.visits as u64 + ABOVE_VISITS * (sector as u64))
}
