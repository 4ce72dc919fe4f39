// What is below a block, copied into a second log: each block is stored there when all that is below it is.
// The first log and the sectors that wait behind it are two runs that are read as one, as in `two_runs`.
#![tactic(auto)]

ghost use Rattle.std.specs.Prelude.{◌≡◌, ℕ, ◌+◌, ◌%◌, ◌≤◌, ◌<◌, length};
ghost use Rattle.kind.specs.Kind.{longest};
ghost use Rattle.block.specs.Block.{Inside};
ghost use Rattle.block.specs.Log.{bytes_of};
ghost use Rattle.descent.specs.Descent.{entries_of};
ghost use Rattle.descent.specs.Parts.{entry_in};
ghost use Rattle.copying.specs.Copy.{copied, copy_directory, copy_entry};
ghost use Rattle.copying.specs.Parts.{copy_listed, copy_scores, copy_below};
ghost use Rattle.two_runs.specs.Runs.{read_as_one, sectors_of_both, EndsWithin};

use block::Block;
use descent::{Below, Judged};
use entry::Entry;
pub use keep::keep;
use sector_number::SectorNumber;
use two_runs::Runs;
use visit::Walked;

// Copies what the entries of a directory block name, one after the other.
#[cycle(copy_below_copy_directory_copy_entry_copy_listed_copy_scores)]
pub fn copy_directory<'a>(
    runs: Runs<'a>,
    second: &mut [u8],
    date: &[u8],
    b: Block,
    nest: usize,
    left: usize,
) -> Walked
    requires { EndsWithin runs × Inside (sectors_of_both runs) b × (b.size ≤ longest) × (nest ≤ 16) × (length date.now ≡ 8) }
    ensures within { result.visits ≤ left }
    ensures exact { (f : ℕ) → left + left + 2 ≤ f → copied result second.new
        ≡ copy_directory f (read_as_one runs.entry) date.now nest
        (bytes_of (read_as_one runs.entry) b) left second.old }
{
    let count = (b.size + entry::ROUND_UP) / entry::ENTRY;
    let mut visits: usize = 0;
    for i in 0..count {
        let w = copy_listed(runs, second, date, b, i, nest, left - visits);
        let ended = w.end;
        visits += w.visits;
        let Ok(()) = ended else {
            return Walked { visits, end: ended };
        };
    }
    Walked {
        visits,
        end: Ok(()),
    }
}

// Copies what entry i of a directory block names: an inactive one is skipped, and an ill-formed active one is refused.
#[cycle(copy_below_copy_directory_copy_entry_copy_listed_copy_scores)]
fn copy_listed<'a>(
    runs: Runs<'a>,
    second: &mut [u8],
    date: &[u8],
    b: Block,
    i: usize,
    nest: usize,
    left: usize,
) -> Walked
    requires { EndsWithin runs × Inside (sectors_of_both runs) b × (b.size ≤ longest) × (nest ≤ 16)
        × (i < entries_of b.size) × (length date.now ≡ 8) }
    ensures within { result.visits ≤ left }
    ensures exact { (f : ℕ) → left + left + 1 ≤ f → copied result second.new
        ≡ copy_listed f (read_as_one runs.entry) date.now nest
        (entry_in (bytes_of (read_as_one runs.entry) b) i) left second.old }
{
    let bytes = visit::entry_bytes(runs, b, i);
    let e = entry::entry_at(&bytes, 0);
    let judged = descent::judge(e);
    match judged {
        Judged::Ends(ended) => Walked {
            visits: 0,
            end: ended,
        },
        Judged::Visited => copy_entry(
            runs,
            second,
            date,
            e,
            &bytes[entry::SCORE..],
            e.depth,
            descent::nest_of(e, nest),
            left,
        ),
    }
}

// Copies a block of an entry at a level, behind all that is below it.
#[cycle(copy_below_copy_directory_copy_entry_copy_listed_copy_scores)]
fn copy_entry<'a>(
    runs: Runs<'a>,
    second: &mut [u8],
    date: &[u8],
    e: Entry,
    score: &[u8],
    level: usize,
    nest: usize,
    left: usize,
) -> Walked
    requires { EndsWithin runs × (length score.now ≡ 20) × (level ≤ 7) × (length date.now ≡ 8) }
    ensures within { result.visits ≤ left }
    ensures exact { (f : ℕ) → left + left + 1 ≤ f → copied result second.new
        ≡ copy_entry f (read_as_one runs.entry) date.now e level nest score.now left second.old }
{
    let m = visit::visit_level(runs, e, score, level, nest, left);
    let Ok(b) = m.look else {
        return visit::answer(m);
    };
    let below = copy_below(runs, second, date, e, b, level, nest, left - 1);
    let kind = tree::type_at(e, level);
    keep::keep(runs, second, date, kind, b, below)
}

// Copies what is below a block of an entry at a level: a pointer block's scores, or the entries of a directory.
#[cycle(copy_below_copy_directory_copy_entry_copy_listed_copy_scores)]
fn copy_below<'a>(
    runs: Runs<'a>,
    second: &mut [u8],
    date: &[u8],
    e: Entry,
    b: Block,
    level: usize,
    nest: usize,
    left: usize,
) -> Walked
    requires { EndsWithin runs × Inside (sectors_of_both runs) b × (b.size ≤ longest) × (level ≤ 7) × (nest ≤ 16) × (length date.now ≡ 8) }
    ensures within { result.visits ≤ left }
    ensures exact { (f : ℕ) → left + left + 2 ≤ f → copied result second.new
        ≡ copy_below f (read_as_one runs.entry) date.now e level nest left
        (bytes_of (read_as_one runs.entry) b) second.old }
{
    let below = descent::below_block(e, level, b.size);
    match below {
        Below::Ends(ended) => Walked {
            visits: 0,
            end: ended,
        },
        Below::Entries => copy_directory(runs, second, date, b, nest, left),
        Below::Scores => { copy_scores(runs, second, date, e, b, level - 1, nest, left) }
    }
}

// Copies what the scores of a pointer block name, one after the other: blocks of an entry at a level.
#[cycle(copy_below_copy_directory_copy_entry_copy_listed_copy_scores)]
fn copy_scores<'a>(
    runs: Runs<'a>,
    second: &mut [u8],
    date: &[u8],
    e: Entry,
    b: Block,
    level: usize,
    nest: usize,
    left: usize,
) -> Walked
    requires { EndsWithin runs × Inside (sectors_of_both runs) b × (b.size ≤ longest) × (b.size % 20 ≡ 0) × (level ≤ 7) × (length date.now ≡ 8) }
    ensures within { result.visits ≤ left }
    ensures exact { (f : ℕ) → left + left + 1 ≤ f → copied result second.new
        ≡ copy_scores f (read_as_one runs.entry) date.now e level nest
        (bytes_of (read_as_one runs.entry) b) left second.old }
{
    let count = b.size / 20;
    let mut visits: usize = 0;
    for i in 0..count {
        let s = tree::score_at(runs, b, i);
        let w = copy_entry(runs, second, date, e, &s, level, nest, left - visits);
        let ended = w.end;
        visits += w.visits;
        let Ok(()) = ended else {
            return Walked { visits, end: ended };
        };
    }
    Walked {
        visits,
        end: Ok(()),
    }
}
