// Storing a block: at most one is appended, right after the used part of the log and of what waits behind it, and nothing else is
// written.
#![tactic(auto)]

ghost use Rattle.std.specs.Prelude.{◌≡◌, ◌≤◌, length};
ghost use Rattle.sha1_digest.specs.Sha1.{sha1_of};
ghost use Rattle.kind.specs.Kind.{longest};
ghost use Rattle.block.specs.Block.{Inside};
ghost use Rattle.block.specs.Log.{bytes_of};
ghost use Rattle.sector_log.specs.Parts.{Lent, beside};
ghost use Rattle.sector_log.specs.Store.{after_store, receipt, compared};
ghost use Rattle.sector_log.specs.Store.{store as store_of};
ghost use Rattle.two_runs.specs.Runs.{read_as_one, sectors_of_both, EndsWithin};

use block::Block;
use refusal::Refusal;
use sector::SECTOR;
use sector_log::{Receipt, Stored};
use sector_number::SectorNumber;
use two_runs::Runs;

// A block that look-up found: a duplicate if it has these very bytes, else a clash.
pub fn compare<'a>(runs: Runs<'a>, b: Block, data: &[u8]) -> Result<Stored, Refusal>
    requires { EndsWithin runs × Inside (sectors_of_both runs) b }
    ensures { (L : Lent) → after_store (receipt (sha1_of «data».now) result) L
        ≡ compared L (bytes_of (read_as_one runs.entry) b) b.first.0 «data».now }
{
    if b.size != data.len() {
        return Err(Refusal::Clash);
    }
    let first = b.first;
    if reader::same_bytes(runs, b, data) {
        return Ok(Stored::Duplicate(first));
    }
    Err(Refusal::Clash)
}

// Stores a block of a type, with a date. The end of the used part is looked for only where the block is appended, and then among the sectors before the
// border: where others wait the border is that end.
pub fn store(log: &[u8], waiting: &mut [u8], date: &[u8], kind: u8, data: &[u8]) -> Receipt
    requires { (length «data».now ≤ longest) × (length date.now ≡ 8) }
    ensures { after_store result (beside log.now waiting.new) ≡ store_of (beside log.now waiting.old) date.now kind «data».now }
{
    let score = sha1_digest::sha1(data);
    let end = lookup::border(log, waiting);
    let Some(b) = lookup::find_held(two_runs::side_by_side(log, end, waiting), kind, &score) else {
        let to = SECTOR * end.0;
        let used = reader::used_part(&log[..to]);
        let stored = insert::append_new(
            log.len() / SECTOR,
            used,
            waiting,
            date,
            kind,
            &score,
            data,
        );
        return Receipt { score, stored };
    };
    let stored = compare(two_runs::side_by_side(log, end, waiting), b, data);
    Receipt { score, stored }
}
