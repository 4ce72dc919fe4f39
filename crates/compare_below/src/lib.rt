// What is below two blocks: two directory trees compared, pair by pair, while the allowance lasts. The blocks lie in two runs of sectors that
// are read as one, as in `two_runs`.
#![tactic(auto)]

ghost use Rattle.std.specs.Prelude.{◌≡◌, ℕ, ◌≤◌, ◌<◌, max, length};
ghost use Rattle.kind.specs.Kind.{longest};
ghost use Rattle.block.specs.Log.{bytes_of};
ghost use Rattle.walk.specs.Walk.{most_allowance};
ghost use Rattle.comparison.specs.Compare.{most_leaf, positions, compare_blocks, compare_entries, compare_position, compare_below};
ghost use Rattle.open_pair.specs.Lies.{Lies};
ghost use Rattle.two_runs.specs.Runs.{read_as_one, sectors_of_both, EndsWithin};

use block::Block;
use comparison::Compared;
use entry::Entry;
use open_pair::Pair;
pub use open_pair::refused;
use refusal::Refusal;
use sector_number::SectorNumber;
use two_runs::Runs;
use verdict::Verdict;

// How many positions a block of a size has at a level.
fn positions_of(level: usize, size: usize) -> usize
    requires { size ≤ longest }
    ensures { result ≡ positions level size }
{
    if level == 0 {
        return (size + entry::ROUND_UP) / entry::ENTRY;
    }
    size / 20
}

// How many positions the longer of two blocks has.
fn positions_of_both(level: usize, a: usize, b: usize) -> usize
    requires { (a ≤ longest) × (b ≤ longest) }
    ensures { result ≡ max (positions level a) (positions level b) }
{
    positions_of(level, a).max(positions_of(level, b))
}

// Compares two entries in directories at a nest.
#[cycle(compare_below_compare_blocks_compare_entries_compare_position)]
pub fn compare_entries<'a>(runs: Runs<'a>, nest: usize, x: &[u8], y: &[u8], left: usize) -> Compared
    requires { EndsWithin runs × (length x.now ≡ 40) × (length y.now ≡ 40) × (nest ≤ 16) × (left ≤ most_allowance) }
    ensures { (f : ℕ) → left < f → result ≡ compare_entries f (read_as_one runs.entry) nest x.now y.now left }
{
    let verdict = verdict::judge(x, y);
    match verdict {
        Verdict::Skip => Compared {
            count: 0,
            units: 0,
            end: Ok(()),
        },
        Verdict::IllFormed => Compared {
            count: 0,
            units: 0,
            end: Err(Refusal::Entry),
        },
        Verdict::Open => {
            let e = entry::entry_at(x, 0);
            compare_blocks(
                runs,
                e,
                e.depth,
                nest + 1,
                &x[entry::SCORE..entry::ENTRY],
                &y[entry::SCORE..entry::ENTRY],
                left,
            )
        }
        Verdict::Differ => Compared {
            count: 1,
            units: 0,
            end: Ok(()),
        },
    }
}

// Compares the blocks of two opened directories under two scores, at a level.
#[cycle(compare_below_compare_blocks_compare_entries_compare_position)]
fn compare_blocks<'a>(
    runs: Runs<'a>,
    e: Entry,
    level: usize,
    nest: usize,
    s: &[u8],
    t: &[u8],
    left: usize,
) -> Compared
    requires { EndsWithin runs × (length s.now ≡ 20) × (length t.now ≡ 20) × (level ≤ 7) × (e.dsize ≤ most_leaf) × (left ≤ most_allowance) }
    ensures { (f : ℕ) → left < f → result ≡ compare_blocks f (read_as_one runs.entry) e level nest s.now t.now left }
{
    let pair = open_pair::open(runs, e, level, nest, s, t, left);
    match pair {
        Pair::Ended(c) => c,
        Pair::Both(b, c) => {
            open_pair::one_unit(compare_below(runs, e, level, nest, b, c, left - 1))
        }
    }
}

// Compares two blocks of a level, position by position.
#[cycle(compare_below_compare_blocks_compare_entries_compare_position)]
fn compare_below<'a>(
    runs: Runs<'a>,
    e: Entry,
    level: usize,
    nest: usize,
    b: Block,
    c: Block,
    left: usize,
) -> Compared
    requires { EndsWithin runs × Lies level b (sectors_of_both runs)
        × Lies level c (sectors_of_both runs) × (level ≤ 7) × (nest ≤ 16) × (e.dsize ≤ most_leaf) × (left < most_allowance) }
    ensures { (f : ℕ) → left < f →
        result ≡ compare_below f (read_as_one runs.entry) e level nest
        (bytes_of (read_as_one runs.entry) b) (bytes_of (read_as_one runs.entry) c)
        left }
{
    let most = positions_of_both(level, b.size, c.size);
    let mut count: usize = 0;
    let mut units: usize = 0;
    for i in 0..most {
        let r = compare_position(runs, e, level, nest, b, c, i, left - units);
        let ended = r.end;
        count += r.count;
        units += r.units;
        let Ok(()) = ended else {
            return Compared {
                count,
                units,
                end: ended,
            };
        };
    }
    Compared {
        count,
        units,
        end: Ok(()),
    }
}

// Compares one position of two blocks of a level: two entries of leaves, or two scores above them.
#[cycle(compare_below_compare_blocks_compare_entries_compare_position)]
fn compare_position<'a>(
    runs: Runs<'a>,
    e: Entry,
    level: usize,
    nest: usize,
    b: Block,
    c: Block,
    i: usize,
    left: usize,
) -> Compared
    requires { EndsWithin runs × Lies level b (sectors_of_both runs)
        × Lies level c (sectors_of_both runs) × (level ≤ 7) × (nest ≤ 16) × (e.dsize ≤ most_leaf) × (left ≤ most_allowance) × (i ≤ longest) }
    ensures { (f : ℕ) → left < f →
        result ≡ compare_position f (read_as_one runs.entry) e level nest
        (bytes_of (read_as_one runs.entry) b) (bytes_of (read_as_one runs.entry) c)
        i left }
{
    if level == 0 {
        let x = visit::entry_bytes(runs, b, i);
        let y = visit::entry_bytes(runs, c, i);
        return compare_entries(runs, nest, &x, &y, left);
    }
    let s = tree::score_at(runs, b, i);
    let t = tree::score_at(runs, c, i);
    compare_blocks(runs, e, level - 1, nest, &s, &t, left)
}
