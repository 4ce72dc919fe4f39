// One visit of a walk: a block looked up, and what is read of it, in two runs of sectors that are read as one, as in `two_runs`.
#![tactic(auto)]

ghost use Rattle.std.specs.Prelude.{◌≡◌, ◌+◌, ◌*◌, ◌≤◌, ◌<◌, ◌^◌, length, drop};
ghost use Rattle.sector.specs.Sector.{filled};
ghost use Rattle.block.specs.Block.{Inside};
ghost use Rattle.block.specs.Log.{bytes_of};
ghost use Rattle.tree.specs.Tree.{type_at, count_at};
ghost use Rattle.visit.specs.Visit.{more};
ghost use Rattle.visit.specs.Met.{met_of, answer_of};
ghost use Rattle.two_runs.specs.Runs.{read_as_one, sectors_of_both, EndsWithin};

use block::Block;
use entry::Entry;
pub use lookup::{are_allowed, border};
use refusal::Refusal;
use sector_number::SectorNumber;
use two_runs::Runs;

// What a walk answers: the visits spent, and how it ended.
#[derive(Clone, Copy)]
pub struct Walked {
    pub visits: usize,
    pub end: Result<(), Refusal>,
}

// What a visit meets: the visits spent on it, one or none, and the block or the reason why there is none.
#[derive(Clone, Copy)]
pub struct Met {
    pub spent: usize,
    pub look: Result<Block, Refusal>,
}

// Entry i of a directory block.
pub fn entry_bytes<'a>(runs: Runs<'a>, b: Block, i: usize) -> [u8; 40]
    requires { EndsWithin runs × Inside (sectors_of_both runs) b × (i < 2 ^ 32) }
    ensures { result ≡ filled 40 (drop (40 * i) (bytes_of (read_as_one runs.entry) b)) }
{
    let mut d = [0u8; 40];
    tree::read_part(runs, b, 40 * i, &mut d);
    d
}

// A root, padded.
pub fn root_bytes<'a>(runs: Runs<'a>, b: Block) -> [u8; 300]
    requires { EndsWithin runs × Inside (sectors_of_both runs) b }
    ensures { result ≡ filled 300 (drop 0 (bytes_of (read_as_one runs.entry) b)) }
{
    let mut d = [0u8; 300];
    tree::read_part(runs, b, 0, &mut d);
    d
}

// A visit: refusal 20, then 21, then one is spent, then the look-up and its count.
pub fn visit<'a>(
    runs: Runs<'a>,
    nest: usize,
    left: usize,
    kind: u8,
    count: usize,
    score: &[u8],
) -> Met
    requires { EndsWithin runs × (length score.now ≡ 20) }
    ensures { result ≡ met_of (read_as_one runs.entry) nest left kind count score.now }
{
    if 16 < nest {
        return Met {
            spent: 0,
            look: Err(Refusal::Nest),
        };
    }
    if left == 0 {
        return Met {
            spent: 0,
            look: Err(Refusal::Spent),
        };
    }
    Met {
        spent: 1,
        look: lookup::fetch(runs, kind, score, count),
    }
}

// A visit of a block of an entry at a level.
pub fn visit_level<'a>(
    runs: Runs<'a>,
    e: Entry,
    score: &[u8],
    level: usize,
    nest: usize,
    left: usize,
) -> Met
    requires { EndsWithin runs × (length score.now ≡ 20) × (level ≤ 7) }
    ensures { result ≡ met_of (read_as_one runs.entry) nest left (type_at e level) (count_at e level) score.now }
{
    visit(
        runs,
        nest,
        left,
        tree::type_at(e, level),
        tree::count_at(e, level),
        score,
    )
}

// What a walk answers that ends with a visit.
pub fn answer(m: Met) -> Walked
    ensures { result ≡ answer_of m }
{
    let look = m.look;
    match look {
        Ok(b) => Walked {
            visits: m.spent,
            end: Ok(()),
        },
        Err(why) => Walked {
            visits: m.spent,
            end: Err(why),
        },
    }
}

// A walk with one visit more.
pub fn one_more(w: Walked) -> Walked
    requires { w.visits + 1 < 2 ^ 64 }
    ensures { result ≡ more w }
{
    let end = w.end;
    Walked {
        visits: w.visits + 1,
        end,
    }
}
