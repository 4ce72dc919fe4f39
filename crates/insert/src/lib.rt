// A new block: the room for it asked for, and then appended.
#![tactic(auto)]

ghost use Rattle.std.specs.Prelude.{◌≡◌, ◌≤◌, ◌<◌, length};
ghost use Rattle.buffer.specs.Bytes.{Bytes};
ghost use Rattle.sha1_digest.specs.Sha1.{sha1_of};
ghost use Rattle.kind.specs.Kind.{longest};
ghost use Rattle.block.specs.Log.{addressable, sectors, used as used_of};
ghost use Rattle.sector_log.specs.Parts.{beside};
ghost use Rattle.sector_log.specs.Store.{after_store, receipt, appended};
ghost use Rattle.sector_log.specs.Behind.{appended_behind};

use refusal::Refusal;
use sector::{FRONT, LABEL, SECTOR};
use sector_log::Stored;
use sector_number::SectorNumber;

// Appends a block that look-up did not find to the waiting part, whose sectors are numbered on from `from` and of which the first `waits` are
// taken, or refuses it for want of room. `most` is how many sectors the log has.
pub fn append_behind(
    most: usize,
    from: SectorNumber,
    waits: SectorNumber,
    waiting: &mut [u8],
    date: &[u8],
    kind: u8,
    score: &[u8; 20],
    data: &[u8],
) -> Result<Stored, Refusal>
    requires { (length «data».now ≤ longest) × (length date.now ≡ 8) × (score.now ≡ sha1_of «data».now) × (from.0 < addressable)
        × (waits.0 ≤ sectors (length waiting.old)) }
    ensures { (log : Bytes) → sectors (length log) ≡ most → after_store (receipt (sha1_of «data».now) result) (beside log waiting.new)
        ≡ appended_behind from.0 waits.0 log waiting.old date.now kind «data».now }
{
    let count = block::parts_of(FRONT + LABEL, data.len());
    if waiting.len() / SECTOR < waits.0 + count {
        return Err(Refusal::NoRoom);
    }
    let first = from.0 + waits.0;
    if most < first + count {
        return Err(Refusal::NoRoom);
    }
    append::append_block(waiting, from, SectorNumber(first), date, kind, score, data);
    Ok(Stored::New(SectorNumber(first)))
}

// Appends it behind the used sectors of the waiting part.
pub fn append_new(
    most: usize,
    from: SectorNumber,
    waiting: &mut [u8],
    date: &[u8],
    kind: u8,
    score: &[u8; 20],
    data: &[u8],
) -> Result<Stored, Refusal>
    requires { (length «data».now ≤ longest) × (length date.now ≡ 8) × (score.now ≡ sha1_of «data».now) × (from.0 < addressable) }
    ensures { (log : Bytes) → sectors (length log) ≡ most → used_of log
        ≡ from.0 → after_store (receipt (sha1_of «data».now) result) (beside log waiting.new)
        ≡ appended (beside log waiting.old) date.now kind «data».now }
{
    let waits = reader::used_part(waiting);
    append_behind(most, from, waits, waiting, date, kind, score, data)
}
