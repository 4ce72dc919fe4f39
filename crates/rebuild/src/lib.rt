// The index rebuilt from a log: one pass over its sectors.
#![tactic(auto)]

ghost use Rattle.std.specs.Prelude.{◌≡◌, true, ◌<◌, length};
ghost use Rattle.hexadecimal.specs.Hex.{is_hex, hex_value};
ghost use Rattle.sector.specs.Sector.{behind, kind_field, score_digits, score_field, sector_length, kind_digits, kind_width};
ghost use Rattle.block.specs.Log.{sectors, sound};
ghost use Rattle.sector_log.specs.LookUp.{blocks};
ghost use Rattle.index.specs.Index.{entered};
ghost use Rattle.hint.specs.Rebuilt.{entered_all, after_rebuild, rebuilt_asked};
ghost use Rattle.rebuild.specs.Rebuild.{entered_found};

use refusal::Refusal;
use sector::{KIND, KIND_WIDTH, SCORE, SCORE_WIDTH, SECTOR};
use sector_number::SectorNumber;
use two_runs::Runs;

// The type that two hex digits name.
pub fn read_kind(digits: &[u8]) -> u8
    requires { (length digits.now ≡ kind_width) × (is_hex digits.now ≡ true) }
    ensures { result ≡ hex_value digits.now }
{
    hexadecimal::read_hex(digits).unwrap_or(0) as u8
}

// Enters the block whose first sector is s: its label has the score and the type.
fn enter_label(s: &[u8], first: SectorNumber, index: &mut [u8])
    requires { (length s.now ≡ sector_length) × (is_hex (kind_digits (behind s.now)) ≡ true) × (is_hex (score_digits (behind s.now)) ≡ true) }
    ensures { index.new ≡ entered index.old (score_field (behind s.now)) (kind_field (behind s.now)) first.0 }
{
    let k = sector::front_length(s);
    let at = k + KIND;
    let end = at + KIND_WIDTH;
    let kind = read_kind(&s[at..end]);
    let from = k + SCORE;
    let to = from + SCORE_WIDTH;
    let mut score = [0u8; 20];
    let _ = hexadecimal::read_hex_bytes(&mut score, &s[from..to]);
    index::enter(index, &score, kind, first);
}

// Enters the sound block that starts at a sector, if one does.
fn enter_at(log: &[u8], n: SectorNumber, index: &mut [u8])
    requires { n.0 < sectors (length log.now) }
    ensures { index.new ≡ entered_found index.old (sound log.now n.0) }
{
    let none = [0u8; 0];
    let runs = Runs {
        log,
        end: SectorNumber(log.len() / SECTOR),
        waiting: &none,
    };
    let Some(_) = reader::sound_at(runs, n) else {
        return;
    };
    enter_label(reader::sector_at(runs, n), n, index);
}

// Enters each sound block, in log order.
fn enter_all(log: &[u8], index: &mut [u8])
    ensures { index.new ≡ entered_all index.old (blocks log.now) }
{
    let count = log.len() / SECTOR;
    for n in 0..count {
        enter_at(log, SectorNumber(n), index);
    }
}

// Clears the buckets and enters each sound block of any log; on a refusal the index stays.
pub fn rebuild(log: &[u8], index: &mut [u8]) -> Result<(), Refusal>
    ensures { after_rebuild result index.new ≡ rebuilt_asked log.now index.old }
{
    if !lookup::is_allowed(log.len()) {
        return Err(Refusal::LogLength);
    }
    index::clear(index);
    enter_all(log, index);
    Ok(())
}
