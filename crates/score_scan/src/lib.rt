// The first sound block of a score and type, by scan of a log and the sectors that wait behind its used part.
#![tactic(auto)]

ghost use Rattle.std.specs.Prelude.{◌≡◌, length};
ghost use Rattle.sector_log.specs.LookUp.{blocks, first_of, held};
ghost use Rattle.reader.specs.Reader.{placed};
ghost use Rattle.score_scan.specs.Digits.{may_hold};
ghost use Rattle.sector.specs.Sector.{sector_length, score_width};
ghost use Rattle.two_runs.specs.Runs.{read_as_one, EndsWithin};

use block::Block;
use sector::{FRONT, LABEL, SCORE, SCORE_WIDTH, SECTOR};
use sector_number::SectorNumber;
use two_runs::Runs;

// Where the digits of the score begin and end in a sector that begins with the line of a date.
const DATED: usize = FRONT + SCORE;

const DATED_END: usize = DATED + SCORE_WIDTH;

// Where they end in one that does not.
const UNDATED_END: usize = SCORE + SCORE_WIDTH;

// Where a line of a processor's cache starts that has digits of the score in either edition, and how many of them stand before it in the first.
const LINE_START: usize = 64;

const BEFORE: usize = LINE_START - SCORE;

// Whether a sector may hold a block of the score with these digits, by its label. Only a few bytes next to each other are looked at.
fn may_hold(s: &[u8], digits: &[u8]) -> bool
    requires { (length s.now ≡ sector_length) × (length digits.now ≡ score_width) }
    ensures { result ≡ may_hold s.now digits.now }
{
    if buffer::equal(&s[DATED..DATED_END], digits) {
        return true;
    }
    buffer::equal(&s[LINE_START..UNDATED_END], &digits[BEFORE..])
}

// The first sound block of a type and score. Only a block whose label has the score is looked at.
fn find<'a>(runs: Runs<'a>, kind: u8, score: &[u8]) -> Option<Block>
    requires { EndsWithin runs × (length score.now ≡ 20) }
    ensures { result ≡ placed (first_of kind score.now (blocks (read_as_one runs.entry))) }
{
    let mut digits = [0u8; SCORE_WIDTH];
    hexadecimal::put_hex_bytes(&mut digits, score);
    let count = runs.end.0 + runs.waiting.len() / SECTOR;
    for n in 0..count {
        let s = reader::sector_at(runs, SectorNumber(n));
        if may_hold(s, &digits) {
            if let Some(b) = reader::sound_as(runs, SectorNumber(n), kind, score) {
                return Some(b);
            }
        }
    }
    None
}

// What look-up finds: the empty block for the zero score, else the first sound block.
pub fn find_held<'a>(runs: Runs<'a>, kind: u8, score: &[u8]) -> Option<Block>
    requires { EndsWithin runs × (length score.now ≡ 20) }
    ensures { result ≡ placed (held (read_as_one runs.entry) kind score.now) }
{
    if kind::is_lawful(kind) {
        if kind::is_zero_score(score) {
            return Some(Block {
                first: SectorNumber(0),
                size: 0,
                label: LABEL,
            });
        }
    }
    find(runs, kind, score)
}
