// Settling: what waits behind a log is moved into it.
#![tactic(auto)]

ghost use Rattle.std.specs.Prelude.{◌≡◌, cond, ◌+◌, ◌≤◌, leb, length};
ghost use Rattle.block.specs.Log.{sectors};
ghost use Rattle.sector_log.specs.Parts.{beside, can_settle};
ghost use Rattle.sector_log.specs.Behind.{moved_behind};
ghost use Rattle.sector_log.specs.Parts.{settled as settled_of};

use sector::SECTOR;
use sector_number::SectorNumber;

// Moves the first `waits` sectors that wait behind the first `used` of the log, in order, and leaves the waiting part blank; where they do not
// fit, nothing is moved.
pub fn move_behind(
    log: &mut [u8],
    waiting: &mut [u8],
    used: SectorNumber,
    waits: SectorNumber,
) -> bool
    requires { (used.0 ≤ sectors (length log.old)) × (waits.0 ≤ sectors (length waiting.old)) }
    ensures fits { result ≡ leb (used.0 + waits.0) (sectors (length log.old)) }
    ensures lent { beside log.new waiting.new
        ≡ cond (leb (used.0 + waits.0) (sectors (length log.old))) (moved_behind used.0 waits.0 log.old waiting.old)
        (beside log.old waiting.old) }
{
    if log.len() / SECTOR < used.0 + waits.0 {
        return false;
    }
    let at = SECTOR * used.0;
    let to = SECTOR * waits.0;
    buffer::copy_at(log, at, &waiting[..to]);
    buffer::clear(waiting);
    true
}

// Moves the sectors that wait into the log, behind its used part, and leaves the waiting part blank; where they do not fit, nothing is moved.
pub fn settle(log: &mut [u8], waiting: &mut [u8]) -> bool
    ensures fits { result ≡ can_settle (beside log.old waiting.old) }
    ensures lent { beside log.new waiting.new
        ≡ cond (can_settle (beside log.old waiting.old)) (settled_of (beside log.old waiting.old)) (beside log.old waiting.old) }
{
    let used = reader::used_part(log);
    let waits = reader::used_part(waiting);
    move_behind(log, waiting, used, waits)
}
