// A block written behind a log, sector by sector.
#![tactic(auto)]

ghost use Rattle.std.specs.Prelude.{◌≡◌, ◌+◌, ◌-◌, ◌*◌, ◌≤◌, ◌<◌, length};
ghost use Rattle.buffer.specs.Bytes.{Bytes, put};
ghost use Rattle.sector.specs.Sector.{front_of, sector_length, body_length, lines_length};
ghost use Rattle.kind.specs.Kind.{longest};
ghost use Rattle.block.specs.Block.{image, images};
ghost use Rattle.block.specs.Log.{sectors};
ghost use Rattle.sector_log.specs.Parts.{written_from};
ghost use Rattle.sector_log.specs.Store.{parts_for};
ghost use Rattle.append.specs.Append.{row_of, parts_behind};

use sector::{FRONT, LABEL, Label, SECTOR};
use sector_number::SectorNumber;

// Writes sector k of a block to its place in a part of the log that starts where the block does; the rest of the part stays. `front` is the line of the
// block's date.
fn write_part(
    part: &mut [u8],
    front: &[u8],
    first: SectorNumber,
    kind: u8,
    score: &[u8],
    data: &[u8],
    k: usize,
)
    requires { (length «data».now ≤ longest) × (length score.now ≡ 20) × (length front.now + lines_length < body_length)
        × (sector_length * parts_behind front.now «data».now ≤ length part.old) × (k < parts_behind front.now «data».now) }
    ensures { (date : Bytes) → front_of date ≡ front.now → part.new
        ≡ put part.old (sector_length * k) (image (row_of kind score.now «data».now first.0 date) k) }
{
    let label = front.len() + LABEL;
    let p = block::payload_of(label);
    let from = p * k;
    let to = (from + p).min(data.len());
    let piece = &data[from..to];
    let of = block::parts_of(label, data.len());
    let label = Label {
        first: first,
        part: k,
        of: of,
        kind: kind,
        size: data.len(),
    };
    let at = SECTOR * k;
    let end = at + SECTOR;
    sector_lines::write_sector(&mut part[at..end], front, label, score, piece);
}

// Writes the sectors of a block to the front of a part of the log; the rest of the part stays.
fn write_parts(
    part: &mut [u8],
    front: &[u8],
    first: SectorNumber,
    kind: u8,
    score: &[u8],
    data: &[u8],
)
    requires { (length «data».now ≤ longest) × (length score.now ≡ 20) × (length front.now + lines_length < body_length)
        × (sector_length * parts_behind front.now «data».now ≤ length part.old) }
    ensures { (date : Bytes) → front_of date ≡ front.now → part.new
        ≡ put part.old 0 (images (row_of kind score.now «data».now first.0 date) (parts_behind front.now «data».now) 0) }
{
    let count = block::parts_of(front.len() + LABEL, data.len());
    for k in 0..count {
        write_part(part, front, first, kind, score, data, k);
    }
}

// Writes a block of a date among the sectors of a part, which are numbered on from sector `from`: what lies there from the block's place on is lent on,
// and no other byte changes.
pub fn append_block(
    part: &mut [u8],
    from: SectorNumber,
    first: SectorNumber,
    date: &[u8],
    kind: u8,
    score: &[u8],
    data: &[u8],
)
    requires { (length «data».now ≤ longest) × (length score.now ≡ 20) × (length date.now ≡ 8) × (from.0 ≤ first.0)
        × (first.0 - from.0 + parts_for date.now «data».now ≤ sectors (length part.old)) }
    ensures { part.new ≡ written_from from.0 part.old (row_of kind score.now «data».now first.0 date.now) }
{
    let mut front = [0u8; FRONT];
    sector_lines::write_front(&mut front, date);
    let at = SECTOR * (first.0 - from.0);
    write_parts(&mut part[at..], &front, first, kind, score, data);
}
