// Look-up, store and sync by what is known: nobody looks for the end of the used part, nor scans where the index leads to every sound block.
#![tactic(auto)]

ghost use Rattle.std.specs.Prelude.{◌≡◌, true, cond, ◌&&◌, ◌+◌, ◌^◌, ◌≤◌, ◌<◌, length};
ghost use Rattle.kind.specs.Kind.{longest};
ghost use Rattle.block.specs.Log.{sectors};
ghost use Rattle.sector_log.specs.Parts.{beside};
ghost use Rattle.sector_log.specs.Store.{after_store};
ghost use Rattle.reader.specs.Reader.{placed};
ghost use Rattle.known.specs.Known.{missing, held_known, owner, store_known, listed, known_after, can_settle_known, settled_known, after_sync};
ghost use Rattle.known.specs.Known.{belongs as belongsOf};

use block::Block;
use known::Known;
use refusal::Refusal;
use sector::SECTOR;
use sector_log::{Receipt, Stored};
use sector_number::SectorNumber;
use two_runs::Runs;

// Whether what is said to be known can belong to a log and a waiting part of these lengths.
pub fn belongs(known: Known, log: usize, waiting: usize) -> bool
    ensures { result ≡ belongsOf known log waiting }
{
    let used = known.used;
    let waits = known.waits;
    if log / SECTOR < used.0 {
        return false;
    }
    if waiting / SECTOR < waits.0 {
        return false;
    }
    let Some(n) = known.doubt else {
        return true;
    };
    n.0 < used.0 + waits.0
}

// The refusal of a block that is not found.
pub fn missing_by(doubt: Option<SectorNumber>) -> Refusal
    ensures { result ≡ missing doubt }
{
    match doubt {
        None => Refusal::NotHeld,
        Some(n) => Refusal::NotKnown(n),
    }
}

// What look-up finds: the empty block for the zero score, else the hint's; else nothing where the index leads to every sound block, and the scan's where it
// does not.
pub fn find_known<'a>(
    log: &'a [u8],
    waiting: &'a [u8],
    index: &[u8],
    known: Known,
    kind: u8,
    score: &[u8],
) -> Option<Block>
    requires { (known.used.0 ≤ sectors (length log.now)) × (length score.now ≡ 20) }
    ensures { result ≡ placed (held_known known log.now waiting.now index.now kind score.now) }
{
    let end = known.used;
    if kind::is_lawful(kind) {
        if kind::is_zero_score(score) {
            return lookup::find_held(Runs { log, end, waiting }, kind, score);
        }
    }
    if let Some(b) = index_lookup::find_hint(Runs { log, end, waiting }, index, kind, score) {
        return Some(b);
    }
    if known.exact {
        return None;
    }
    lookup::find_held(Runs { log, end, waiting }, kind, score)
}

// The block that a write of this type and score has to be compared with, if there is one.
fn find_owner<'a>(
    log: &'a [u8],
    waiting: &'a [u8],
    index: &[u8],
    known: Known,
    kind: u8,
    score: &[u8],
) -> Option<Block>
    requires { (known.used.0 ≤ sectors (length log.now)) × (length score.now ≡ 20) }
    ensures { result ≡ placed (owner known log.now waiting.now index.now kind score.now) }
{
    if known.exact {
        return find_known(log, waiting, index, known, kind, score);
    }
    let end = known.used;
    lookup::find_held(Runs { log, end, waiting }, kind, score)
}

// Stores a block of a type, with a date, by what is known.
pub fn store_known(
    log: &[u8],
    waiting: &mut [u8],
    index: &[u8],
    known: Known,
    date: &[u8],
    kind: u8,
    data: &[u8],
) -> Receipt
    requires { (belongsOf known (length log.now) (length waiting.old) ≡ true) × (length «data».now ≤ longest) × (length date.now ≡ 8) }
    ensures { after_store result (beside log.now waiting.new)
        ≡ store_known known log.now waiting.old index.now date.now kind «data».now }
{
    let score = sha1_digest::sha1(data);
    let Some(b) = find_owner(log, waiting, index, known, kind, &score) else {
        let used = known.used;
        let waits = known.waits;
        let stored = insert::append_behind(
            log.len() / SECTOR,
            used,
            waits,
            waiting,
            date,
            kind,
            &score,
            data,
        );
        return Receipt { score, stored };
    };
    let end = known.used;
    let stored = store::compare(Runs { log, end, waiting }, b, data);
    Receipt { score, stored }
}

// Whether the index leads to every sound block still, with one more at the end that is known.
fn still_exact(index: &[u8], score: &[u8], kind: u8, known: Known) -> bool
    requires { (length score.now ≡ 20) × (known.used.0 + known.waits.0 < 2 ^ 64) }
    ensures { result ≡ (known.exact && listed index.now score.now kind (known.used.0 + known.waits.0)) }
{
    if !known.exact {
        return false;
    }
    let used = known.used;
    let waits = known.waits;
    let first = used.0 + waits.0;
    bucket_scan::lists(index, score, kind, SectorNumber(first))
}

// What is known after a store of `count` sectors, by the index that it left.
pub fn known_after(
    index: &[u8],
    stored: Result<Stored, Refusal>,
    score: &[u8],
    kind: u8,
    count: usize,
    known: Known,
) -> Known
    requires { (length score.now ≡ 20) × (known.used.0 + known.waits.0 < 2 ^ 64) × (known.waits.0 + count < 2 ^ 64) }
    ensures { result ≡ known_after known stored count (listed index.now score.now kind (known.used.0 + known.waits.0)) }
{
    let Ok(Stored::New(_)) = stored else {
        return known;
    };
    let exact = still_exact(index, score, kind, known);
    let used = known.used;
    let waits = known.waits;
    let doubt = known.doubt;
    let more = waits.0 + count;
    Known {
        used,
        waits: SectorNumber(more),
        doubt,
        exact,
    }
}

// Moves the sectors that wait to the end that is known, in order, and leaves the waiting part blank; where they do not fit, nothing is moved.
pub fn settle_known(log: &mut [u8], waiting: &mut [u8], known: Known) -> bool
    requires { belongsOf known (length log.old) (length waiting.old) ≡ true }
    ensures fits { result ≡ can_settle_known known (length log.old) }
    ensures lent { beside log.new waiting.new
        ≡ cond (can_settle_known known (length log.old)) (settled_known known log.old waiting.old) (beside log.old waiting.old) }
{
    let used = known.used;
    let waits = known.waits;
    settle::move_behind(log, waiting, used, waits)
}

// What is known after a sync that moved what waits.
pub fn after_sync(known: Known) -> Known
    requires { known.used.0 + known.waits.0 < 2 ^ 64 }
    ensures { result ≡ after_sync known }
{
    let used = known.used;
    let waits = known.waits;
    let end = used.0 + waits.0;
    let doubt = known.doubt;
    let exact = known.exact;
    Known {
        used: SectorNumber(end),
        waits: SectorNumber(0),
        doubt,
        exact,
    }
}
