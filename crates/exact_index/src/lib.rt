// Whether an index leads to every sound block.
#![tactic(auto)]

ghost use Rattle.std.specs.Prelude.{◌≡◌, true, ◌≢◌, ◌<◌, length};
ghost use Rattle.std.proofs.Math.Option.{none};
ghost use Rattle.hexadecimal.specs.Hex.{is_hex};
ghost use Rattle.sector.specs.Sector.{behind, kind_field, score_digits, score_field, sector_length, kind_digits};
ghost use Rattle.block.specs.Log.{sound};
ghost use Rattle.hint.specs.Hint.{sound_with, hint};
ghost use Rattle.known.specs.Known.{exactly};
ghost use Rattle.exact_index.specs.Leads.{found_by, leads_found};
ghost use Rattle.two_runs.specs.Runs.{read_as_one, sectors_of_both, EndsWithin};

use sector::{KIND, KIND_WIDTH, SCORE, SCORE_WIDTH, SECTOR};
use sector_number::SectorNumber;
use two_runs::Runs;

// Whether the index leads from the type and score of the label s to a block at sector n or before it. Such a block was found sound at n: where the index
// tells n first, it is not looked at again.
fn leads_from<'a>(runs: Runs<'a>, index: &[u8], s: &[u8], n: SectorNumber) -> bool
    requires { EndsWithin runs × (length s.now ≡ sector_length) × (is_hex (kind_digits (behind s.now)) ≡ true)
        × (is_hex (score_digits (behind s.now)) ≡ true)
        × (sound_with (read_as_one runs) n.0 (kind_field (behind s.now)) (score_field (behind s.now)) ≢ none) }
    ensures { result
        ≡ found_by (hint (read_as_one runs.entry) index.now (kind_field (behind s.now)) (score_field (behind s.now))) n.0 }
{
    let k = sector::front_length(s);
    let at = k + KIND;
    let to = at + KIND_WIDTH;
    let kind = rebuild::read_kind(&s[at..to]);
    let from = k + SCORE;
    let last = from + SCORE_WIDTH;
    let mut score = [0u8; 20];
    let _ = hexadecimal::read_hex_bytes(&mut score, &s[from..last]);
    if first_entry::tells_first(index, kind, &score, n) {
        return true;
    }
    let Some(b) = index_lookup::find_hint(runs, index, kind, &score) else {
        return false;
    };
    b.first.0 <= n.0
}

// Whether the index leads to the sound block that starts at a sector, if one does.
fn leads_at<'a>(runs: Runs<'a>, index: &[u8], n: SectorNumber) -> bool
    requires { EndsWithin runs × (n.0 < sectors_of_both runs) }
    ensures { result ≡ leads_found (read_as_one runs.entry) index.now (sound (read_as_one runs.entry) n.0) }
{
    let Some(_) = reader::sound_at(runs, n) else {
        return true;
    };
    let s = reader::sector_at(runs, n);
    leads_from(runs, index, s, n)
}

// Whether the index leads to every sound block.
pub fn is_exact<'a>(runs: Runs<'a>, index: &[u8]) -> bool
    requires { EndsWithin runs }
    ensures { result ≡ exactly (read_as_one runs.entry) index.now }
{
    let count = runs.end.0 + runs.waiting.len() / SECTOR;
    for n in 0..count {
        if !leads_at(runs, index, SectorNumber(n)) {
            return false;
        }
    }
    true
}
