// Whether the block that starts at a sector is sound. It is read from two runs of sectors: the first `end` sectors of a log and the sectors that wait
// behind them, read as one. They are any bytes: nothing assumes that the archive wrote them.
#![tactic(auto)]

ghost use Rattle.std.specs.Prelude.{◌≡◌, ◌<◌, length};
ghost use Rattle.sector.specs.Sector.{front_of, date_field};
ghost use Rattle.block.specs.Log.{at, sound_as, sound};
ghost use Rattle.reader.specs.Reader.{placed};
ghost use Rattle.two_runs.specs.Runs.{read_as_one, sectors_of_both, EndsWithin};

use block::Block;
pub use block_tested::{copy_out, same_bytes, sector_at, used_part};
use kind::LONGEST;
use sector::{KIND, KIND_WIDTH, LABEL, SCORE, SCORE_WIDTH, SECTOR, SIZE, SIZE_WIDTH};
use sector_number::SectorNumber;
use two_runs::Runs;

// How many sectors the eight digits of a label's place can name.
const PLACES: usize = 4294967296;

// Where the block that starts at a sector stands, if it is sound and has this type and score; `front` is the line of a date with which that sector begins,
// or nothing.
fn sound_behind<'a>(
    runs: Runs<'a>,
    front: &[u8],
    first: SectorNumber,
    kind: u8,
    score: &[u8],
) -> Option<Block>
    requires { EndsWithin runs × (first.0 < sectors_of_both runs)
        × (front.now ≡ front_of (date_field (at (read_as_one runs) first.0))) × (length score.now ≡ 20) }
    ensures { result ≡ placed (sound_as (read_as_one runs.entry) first.0 kind score.now) }
{
    let k = front.len();
    let size = block_tested::field_number(runs, first, k, SIZE, SIZE_WIDTH);
    if size < 1 {
        return None;
    }
    if LONGEST < size {
        return None;
    }
    if !kind::is_lawful(kind) {
        return None;
    }
    let label = k + LABEL;
    let of = block::parts_of(label, size);
    let after = first.0 + of;
    if runs.end.0 + runs.waiting.len() / SECTOR < after {
        return None;
    }
    if PLACES < after {
        return None;
    }
    let b = Block { first, size, label };
    if !block_tested::passes(runs, front, b, kind, score) {
        return None;
    }
    Some(b)
}

// Where the block that starts at a sector stands, if it is sound and has this type and score.
pub fn sound_as<'a>(runs: Runs<'a>, first: SectorNumber, kind: u8, score: &[u8]) -> Option<Block>
    requires { EndsWithin runs × (first.0 < sectors_of_both runs) × (length score.now ≡ 20) }
    ensures { result ≡ placed (sound_as (read_as_one runs.entry) first.0 kind score.now) }
{
    let s = block_tested::sector_at(runs, first);
    let k = sector::front_length(s);
    sound_behind(runs, &s[..k], first, kind, score)
}

// Where the sound block that starts at a sector stands, if one does.
pub fn sound_at<'a>(runs: Runs<'a>, first: SectorNumber) -> Option<Block>
    requires { EndsWithin runs × (first.0 < sectors_of_both runs) }
    ensures { result ≡ placed (sound (read_as_one runs.entry) first.0) }
{
    let s = block_tested::sector_at(runs, first);
    let k = sector::front_length(s);
    let kind = block_tested::field_number(runs, first, k, KIND, KIND_WIDTH);
    if kind < 1 {
        return None;
    }
    let from = k + SCORE;
    let to = from + SCORE_WIDTH;
    let mut score = [0u8; 20];
    if !hexadecimal::read_hex_bytes(&mut score, &s[from..to]) {
        return None;
    }
    sound_behind(runs, &s[..k], first, kind as u8, &score)
}
