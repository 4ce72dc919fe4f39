// Look-up by index in a log and the sectors that wait behind its used part.
#![tactic(auto)]

ghost use Rattle.std.specs.Prelude.{◌≡◌, ◌+◌, ◌*◌, ◌≤◌, length};
ghost use Rattle.sector_log.specs.LookUp.{counted};
ghost use Rattle.reader.specs.Reader.{placed};
ghost use Rattle.hint.specs.Hint.{true_at, hint, held_by, look_up_by, look_up_by_asked};
ghost use Rattle.two_runs.specs.Runs.{read_as_one, EndsWithin};

use block::Block;
use refusal::Refusal;
use sector::SECTOR;
use sector_number::SectorNumber;
use two_runs::Runs;

// The block that the entry at a place is true of: it names the score and type, and such a block starts at its sector.
fn true_at<'a>(runs: Runs<'a>, index: &[u8], p: usize, kind: u8, score: &[u8]) -> Option<Block>
    requires { EndsWithin runs × (25 * p + 25 ≤ length index.now) × (length score.now ≡ 20) }
    ensures { result ≡ placed (true_at (read_as_one runs.entry) index.now kind score.now p) }
{
    if !index::names(index, p, kind, score) {
        return None;
    }
    let first = index::sector_at(index, p);
    if runs.end.0 + runs.waiting.len() / SECTOR <= first.0 {
        return None;
    }
    reader::sound_as(runs, first, kind, score)
}

// The block of the first entry of the bucket that is true.
pub fn find_hint<'a>(runs: Runs<'a>, index: &[u8], kind: u8, score: &[u8]) -> Option<Block>
    requires { EndsWithin runs × (length score.now ≡ 20) }
    ensures { result ≡ placed (hint (read_as_one runs.entry) index.now kind score.now) }
{
    let b = index::bucket_of(index, score);
    let to = b.to;
    for p in b.from..to {
        if let Some(b) = true_at(runs, index, p, kind, score) {
            return Some(b);
        }
    }
    None
}

// What look-up by index finds: the empty block for the zero score, else the hint's, else the scan's.
fn find_held_by<'a>(runs: Runs<'a>, index: &[u8], kind: u8, score: &[u8]) -> Option<Block>
    requires { EndsWithin runs × (length score.now ≡ 20) }
    ensures { result ≡ placed (held_by (read_as_one runs.entry) index.now kind score.now) }
{
    if kind::is_lawful(kind) {
        if kind::is_zero_score(score) {
            return lookup::find_held(runs, kind, score);
        }
    }
    if let Some(b) = find_hint(runs, index, kind, score) {
        return Some(b);
    }
    lookup::find_held(runs, kind, score)
}

// Look-up of a score and type by index.
pub fn look_up_by<'a>(
    runs: Runs<'a>,
    index: &[u8],
    kind: u8,
    score: &[u8],
) -> Result<Block, Refusal>
    requires { EndsWithin runs × (length score.now ≡ 20) }
    ensures { result ≡ look_up_by (read_as_one runs.entry) index.now kind score.now }
{
    let Some(b) = find_held_by(runs, index, kind, score) else {
        return Err(lookup::why_absent(runs));
    };
    Ok(b)
}

// Look-up by index for a read: also refused if the block is longer than count.
pub fn fetch_by<'a>(
    runs: Runs<'a>,
    index: &[u8],
    kind: u8,
    score: &[u8],
    count: usize,
) -> Result<Block, Refusal>
    requires { EndsWithin runs × (length score.now ≡ 20) }
    ensures { result ≡ counted count (look_up_by (read_as_one runs.entry) index.now kind score.now) }
{
    let b = look_up_by(runs, index, kind, score)?;
    if count < b.size {
        return Err(Refusal::OverCount);
    }
    Ok(b)
}

// The public look-up by index: any log, waiting part, index, type and score.
pub fn ask_by<'a>(
    log: &'a [u8],
    waiting: &'a [u8],
    index: &[u8],
    kind: u8,
    score: &[u8; 20],
) -> Result<Block, Refusal>
    ensures { result ≡ look_up_by_asked log.now waiting.now index.now kind score.now }
{
    if !lookup::are_allowed(log.len(), waiting.len()) {
        return Err(Refusal::LogLength);
    }
    if !kind::is_lawful(kind) {
        return Err(Refusal::BlockType);
    }
    let end = lookup::border(log, waiting);
    look_up_by(Runs { log, end, waiting }, index, kind, score)
}
