// Writing a file: a slice cut into leaves, pointer blocks over their scores, each block stored as a write of it would be, and the entry over them.
#![tactic(auto)]

ghost use Rattle.std.specs.Prelude.{◌≡◌, true, ◌+◌, ◌*◌, ◌/◌, ◌%◌, ◌≤◌, ◌<◌, length, take};
ghost use Rattle.buffer.specs.Bytes.{put};
ghost use Rattle.kind.specs.Kind.{lawful, is_pointer, longest};
ghost use Rattle.block.specs.Block.{parts_of};
ghost use Rattle.sector_log.specs.Parts.{beside};
ghost use Rattle.sector_log.specs.Store.{after_store};
ghost use Rattle.sector_log.specs.Store.{store as store_of};
ghost use Rattle.tree.specs.Tree.{piece};
ghost use Rattle.cut.specs.Cut.{unit_of, cut_length, whole_units};
ghost use Rattle.entry.specs.Made.{made_entry};
ghost use Rattle.writer.specs.Blocks.{cut_block, level, leaves, scores_of, scores_at, pointer_blocks, file_blocks, top_of, top_score};
ghost use Rattle.writer.specs.WriteFile.{end_of, after_all, store_all, outcome, wrote, write_file};

use entry::ENTRY;
use kind::LONGEST;
use refusal::Refusal;
use sector_log::{Receipt, Stored};

// How long the lent buffer of scores is at least: a score for each of the most leaves.
pub const SCORES: usize = 20 * LONGEST;

// How many pieces of a width so many bytes make.
fn pieces(width: usize, size: usize) -> usize
    requires { (1 ≤ width) × (width ≤ longest) × (size ≤ 20 * longest) }
    ensures { result ≡ parts_of width size }
{
    (size + (width - 1)) / width
}

// The length of a block of a type once it is cut.
fn cut_length(kind: u8, block: &[u8]) -> usize
    requires { (lawful kind ≡ true) × (whole_units (unit_of kind) (length block.now) ≡ true) }
    ensures { result ≡ cut_length (unit_of kind) block.now }
{
    let kept = cut::cut(kind, block);
    match kept {
        Ok(n) => n,
        Err(_) => 0,
    }
}

// Stores a block of a type, cut.
fn store_cut(log: &[u8], waiting: &mut [u8], date: &[u8], kind: u8, block: &[u8]) -> Receipt
    requires { (length block.now ≤ longest) × (length date.now ≡ 8) × (lawful kind ≡ true) × (whole_units (unit_of kind) (length block.now) ≡ true) }
    ensures { after_store result (beside log.now waiting.new)
        ≡ store_of (beside log.now waiting.old) date.now kind (cut_block kind block.now) }
{
    let n = cut_length(kind, block);
    store::store(log, waiting, date, kind, &block[..n])
}

// How a store goes on.
fn end_of(stored: Result<Stored, Refusal>) -> Result<(), Refusal>
    ensures { result ≡ end_of stored }
{
    match stored {
        Ok(Stored::New(_)) => Ok(()),
        Ok(Stored::Duplicate(_)) => Ok(()),
        Err(why) => Err(why),
    }
}

// Stores piece i of a width of a source as a block of a type, cut.
fn store_piece(
    log: &[u8],
    waiting: &mut [u8],
    date: &[u8],
    kind: u8,
    width: usize,
    source: &[u8],
    i: usize,
) -> Receipt
    requires { (length date.now ≡ 8) × (lawful kind ≡ true) × (1 ≤ width) × (width ≤ longest) × (length source.now ≤ 20 * longest)
        × (i < parts_of width (length source.now)) × (whole_units (unit_of kind) (length (piece width i source.now)) ≡ true) }
    ensures { after_store result (beside log.now waiting.new)
        ≡ store_of (beside log.now waiting.old) date.now kind (cut_block kind (piece width i source.now)) }
{
    let at = width * i;
    let to = (at + width).min(source.len());
    store_cut(log, waiting, date, kind, &source[at..to])
}

// How it goes on: the score of a block that was stored goes to place i of the lent buffer.
fn keep_score(receipt: Receipt, scores: &mut [u8], i: usize) -> Result<(), Refusal>
    requires { (20 * i + 20 ≤ length scores.old) × (length receipt.score ≡ 20) }
    ensures end { result ≡ end_of receipt.stored }
    ensures score { result ≡ Ok tt → scores.new ≡ put scores.old (20 * i) receipt.score }
{
    let score = receipt.score;
    let stored = receipt.stored;
    end_of(stored)?;
    buffer::copy_at(scores, 20 * i, &score);
    Ok(())
}

// Stores the leaves of a slice, from the left. Their scores fill the lent buffer.
fn write_leaves(
    log: &[u8],
    waiting: &mut [u8],
    date: &[u8],
    slice: &[u8],
    dsize: usize,
    scores: &mut [u8],
) -> Result<(), Refusal>
    requires { (length date.now ≡ 8) × (length slice.now ≤ longest) × (1 ≤ dsize) × (dsize ≤ longest) × (length scores.old ≡ 20 * parts_of dsize (length slice.now)) }
    ensures blocks { after_all result (beside log.now waiting.new)
        ≡ store_all (beside log.now waiting.old) date.now (leaves dsize slice.now) }
    ensures scores { result ≡ Ok tt → scores.new ≡ scores_of (leaves dsize slice.now) }
{
    let count = pieces(dsize, slice.len());
    for i in 0..count {
        let receipt = store_piece(log, waiting, date, 13, dsize, slice, i);
        keep_score(receipt, scores, i)?;
    }
    Ok(())
}

// Stores the pointer blocks of a type over the scores in the lent buffer, from the left. Their own scores go to its front: each block is stored before a score
// is written over it.
fn write_level(
    log: &[u8],
    waiting: &mut [u8],
    date: &[u8],
    kind: u8,
    width: usize,
    scores: &mut [u8],
) -> Result<(), Refusal>
    requires { (length date.now ≡ 8) × (is_pointer kind ≡ true) × (20 ≤ width) × (width ≤ longest) × (width % 20 ≡ 0) × (length scores.old % 20 ≡ 0) × (length scores.old ≤ 20 * longest) }
    ensures blocks { after_all result (beside log.now waiting.new)
        ≡ store_all (beside log.now waiting.old) date.now (level kind width scores.old) }
    ensures scores { result ≡ Ok tt → take (20 * parts_of width (length scores.old)) scores.new ≡ scores_of (level kind width scores.old) }
{
    let count = pieces(width, scores.len());
    for i in 0..count {
        let receipt = store_piece(log, waiting, date, kind, width, scores, i);
        keep_score(receipt, scores, i)?;
    }
    Ok(())
}

// Stores the pointer blocks over the leaves' scores in the lent buffer, level by level upward. The scores of each level go to its front.
fn write_levels(
    log: &[u8],
    waiting: &mut [u8],
    date: &[u8],
    width: usize,
    depth: usize,
    scores: &mut [u8],
) -> Result<(), Refusal>
    requires { (length date.now ≡ 8) × (20 ≤ width) × (width ≤ longest) × (width % 20 ≡ 0) × (depth ≤ 7) × (length scores.old % 20 ≡ 0) × (length scores.old ≤ 20 * longest) }
    ensures blocks { after_all result (beside log.now waiting.new)
        ≡ store_all (beside log.now waiting.old) date.now (pointer_blocks width scores.old depth) }
    ensures top { result ≡ Ok tt → top_of scores.new ≡ top_of (scores_at width scores.old depth) }
{
    let mut n = scores.len();
    for k in 0..depth {
        let kind = (3 + k) as u8;
        write_level(log, waiting, date, kind, width, &mut scores[..n])?;
        n = 20 * pieces(width, n);
    }
    Ok(())
}

// Stores the blocks of a file, the leaves and then the levels over them, in a lent buffer with room for the leaves' scores.
fn write_blocks(
    log: &[u8],
    waiting: &mut [u8],
    date: &[u8],
    slice: &[u8],
    dsize: usize,
    psize: usize,
    depth: usize,
    scores: &mut [u8],
) -> Result<(), Refusal>
    requires { (length date.now ≡ 8) × (length slice.now ≤ longest) × (1 ≤ dsize) × (dsize ≤ longest) × (40 ≤ psize) × (psize ≤ longest) × (depth ≤ 7)
        × (length scores.old ≡ 20 * parts_of dsize (length slice.now)) }
    ensures blocks { after_all result (beside log.now waiting.new)
        ≡ store_all (beside log.now waiting.old) date.now (file_blocks slice.now dsize psize depth) }
    ensures top { result ≡ Ok tt → top_of scores.new ≡ top_score slice.now dsize psize depth }
{
    write_leaves(log, waiting, date, slice, dsize, scores)?;
    write_levels(log, waiting, date, 20 * (psize / 20), depth, scores)
}

// The entry over a file whose top score is the first of the scores; the zero score where there is none.
fn make_entry(psize: usize, dsize: usize, depth: usize, size: usize, scores: &[u8]) -> [u8; 40]
    requires { (psize ≤ longest) × (dsize ≤ longest) × (depth ≤ 7) × (size ≤ longest) × (length scores.now % 20 ≡ 0) }
    ensures { result ≡ made_entry psize dsize depth size (top_of scores.now) }
{
    let mut e = [0u8; ENTRY];
    e[4] = (psize / 256) as u8;
    e[5] = (psize % 256) as u8;
    e[6] = (dsize / 256) as u8;
    e[7] = (dsize % 256) as u8;
    e[8] = (1 + 4 * depth) as u8;
    e[18] = (size / 256) as u8;
    e[19] = (size % 256) as u8;
    if scores.len() == 0 {
        let z = kind::zero_score();
        buffer::copy_at(&mut e, entry::SCORE, &z);
        return e;
    }
    buffer::copy_at(&mut e, entry::SCORE, &scores[..20]);
    e
}

// Stores the blocks of a file that passed the tests, and writes its entry. The front of the buffer of scores is zeros then.
fn write_tested(
    log: &[u8],
    waiting: &mut [u8],
    date: &[u8],
    slice: &[u8],
    dsize: usize,
    psize: usize,
    depth: usize,
    entry: &mut [u8],
    scores: &mut [u8],
) -> Result<(), Refusal>
    requires { (length date.now ≡ 8) × (length slice.now ≤ longest) × (1 ≤ dsize) × (dsize ≤ longest) × (40 ≤ psize) × (psize ≤ longest) × (depth ≤ 7)
        × (length entry.old ≡ 40) × (20 * longest ≤ length scores.old) }
    ensures { outcome result (beside log.now waiting.new) entry.new scores.new
        ≡ wrote log.now waiting.old date.now slice.now dsize psize entry.old scores.old depth }
{
    let n = 20 * pieces(dsize, slice.len());
    let ended = write_blocks(
        log,
        waiting,
        date,
        slice,
        dsize,
        psize,
        depth,
        &mut scores[..n],
    );
    let e = make_entry(psize, dsize, depth, slice.len(), &scores[..n]);
    buffer::clear(&mut scores[..n]);
    ended?;
    buffer::copy_at(entry, 0, &e);
    Ok(())
}

// Writes a file: any log, waiting part, date, slice, sizes, and lent buffers. Ok where all blocks are stored.
pub fn write_file(
    log: &[u8],
    waiting: &mut [u8],
    date: &[u8],
    slice: &[u8],
    dsize: usize,
    psize: usize,
    entry: &mut [u8],
    scores: &mut [u8],
) -> Result<(), Refusal>
    ensures { outcome result (beside log.now waiting.new) entry.new scores.new
        ≡ write_file log.now waiting.old date.now slice.now dsize psize entry.old scores.old }
{
    if entry.len() != ENTRY {
        return Err(Refusal::Buffer);
    }
    if scores.len() < SCORES {
        return Err(Refusal::Buffer);
    }
    if !lookup::are_allowed(log.len(), waiting.len()) {
        return Err(Refusal::LogLength);
    }
    if !sector::is_date(date) {
        return Err(Refusal::Date);
    }
    if LONGEST < slice.len() {
        return Err(Refusal::DataLength);
    }
    let Some(depth) = depth::depth_of(slice.len(), dsize, psize) else {
        return Err(Refusal::Entry);
    };
    write_tested(
        log, waiting, date, slice, dsize, psize, depth, entry, scores,
    )
}
