// What is below a block: the entries of a directory, and the scores of a pointer block, are visited in order while the allowance lasts.
// The blocks lie in two runs of sectors that are read as one, as in `two_runs`.
#![tactic(auto)]

ghost use Rattle.std.specs.Prelude.{◌≡◌, ℕ, ◌+◌, ◌%◌, ◌≤◌, ◌<◌, length};
ghost use Rattle.kind.specs.Kind.{longest};
ghost use Rattle.block.specs.Block.{Inside};
ghost use Rattle.block.specs.Log.{bytes_of};
ghost use Rattle.descent.specs.Descent.{entries_of, visit_directory, visit_entry};
ghost use Rattle.descent.specs.Parts.{entry_in, visit_listed, visit_scores};
ghost use Rattle.two_runs.specs.Runs.{read_as_one, sectors_of_both, EndsWithin};

use block::Block;
use descent::{Below, Judged};
use entry::Entry;
use sector_number::SectorNumber;
use two_runs::Runs;
use visit::Walked;

// Visits the entries of a directory block, one after the other.
#[cycle(visit_directory_visit_entry_visit_listed_visit_scores)]
pub fn visit_directory<'a>(runs: Runs<'a>, b: Block, nest: usize, left: usize) -> Walked
    requires { EndsWithin runs × Inside (sectors_of_both runs) b × (b.size ≤ longest) × (nest ≤ 16) }
    ensures within { result.visits ≤ left }
    ensures exact { (f : ℕ) → left + left + 2 ≤ f →
        result ≡ visit_directory f (read_as_one runs.entry) nest (bytes_of (read_as_one runs.entry) b) left }
{
    let count = (b.size + entry::ROUND_UP) / entry::ENTRY;
    let mut visits: usize = 0;
    for i in 0..count {
        let w = visit_listed(runs, b, i, nest, left - visits);
        let ended = w.end;
        visits += w.visits;
        let Ok(()) = ended else {
            return Walked { visits, end: ended };
        };
    }
    Walked {
        visits,
        end: Ok(()),
    }
}

// Visits entry i of a directory block: an inactive one is skipped, and an ill-formed active one is refused.
#[cycle(visit_directory_visit_entry_visit_listed_visit_scores)]
fn visit_listed<'a>(runs: Runs<'a>, b: Block, i: usize, nest: usize, left: usize) -> Walked
    requires { EndsWithin runs × Inside (sectors_of_both runs) b × (b.size ≤ longest) × (nest ≤ 16) × (i < entries_of b.size) }
    ensures within { result.visits ≤ left }
    ensures exact { (f : ℕ) → left + left + 1 ≤ f →
        result ≡ visit_listed f (read_as_one runs.entry) nest (entry_in (bytes_of (read_as_one runs.entry) b) i) left }
{
    let bytes = visit::entry_bytes(runs, b, i);
    let e = entry::entry_at(&bytes, 0);
    let judged = descent::judge(e);
    match judged {
        Judged::Ends(ended) => Walked {
            visits: 0,
            end: ended,
        },
        Judged::Visited => visit_entry(
            runs,
            e,
            &bytes[entry::SCORE..],
            e.depth,
            descent::nest_of(e, nest),
            left,
        ),
    }
}

// Visits a block of an entry at a level, and what is below it: a pointer block's scores, or the entries of a directory.
#[cycle(visit_directory_visit_entry_visit_listed_visit_scores)]
fn visit_entry<'a>(
    runs: Runs<'a>,
    e: Entry,
    score: &[u8],
    level: usize,
    nest: usize,
    left: usize,
) -> Walked
    requires { EndsWithin runs × (length score.now ≡ 20) × (level ≤ 7) }
    ensures within { result.visits ≤ left }
    ensures exact { (f : ℕ) → left + left + 1 ≤ f → result ≡ visit_entry f (read_as_one runs.entry) e level nest score.now left }
{
    let m = visit::visit_level(runs, e, score, level, nest, left);
    let Ok(b) = m.look else {
        return visit::answer(m);
    };
    let below = descent::below_block(e, level, b.size);
    match below {
        Below::Ends(ended) => Walked {
            visits: 1,
            end: ended,
        },
        Below::Entries => { visit::one_more(visit_directory(runs, b, nest, left - 1)) }
        Below::Scores => { visit::one_more(visit_scores(runs, e, b, level - 1, nest, left - 1)) }
    }
}

// Visits the scores of a pointer block, one after the other: blocks of an entry at a level.
#[cycle(visit_directory_visit_entry_visit_listed_visit_scores)]
fn visit_scores<'a>(
    runs: Runs<'a>,
    e: Entry,
    b: Block,
    level: usize,
    nest: usize,
    left: usize,
) -> Walked
    requires { EndsWithin runs × Inside (sectors_of_both runs) b × (b.size ≤ longest) × (b.size % 20 ≡ 0) × (level ≤ 7) }
    ensures within { result.visits ≤ left }
    ensures exact { (f : ℕ) → left + left + 1 ≤ f →
        result ≡ visit_scores f (read_as_one runs.entry) e level nest (bytes_of (read_as_one runs.entry) b) left }
{
    let count = b.size / 20;
    let mut visits: usize = 0;
    for i in 0..count {
        let s = tree::score_at(runs, b, i);
        let w = visit_entry(runs, e, &s, level, nest, left - visits);
        let ended = w.end;
        visits += w.visits;
        let Ok(()) = ended else {
            return Walked { visits, end: ended };
        };
    }
    Walked {
        visits,
        end: Ok(()),
    }
}
