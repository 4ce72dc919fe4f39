// The way down to the leaf of an offset, through the pointer blocks.
#![tactic(auto)]

ghost use Rattle.std.specs.Prelude.{◌≡◌, ℕ, ◌/◌, ◌%◌, ◌^◌, ◌<◌, length};
ghost use Rattle.leaf.specs.Leaf.{under};
ghost use Rattle.leaf.specs.Fetch.{LiesIn, run_in, Open};
ghost use Rattle.two_runs.specs.Runs.{read_as_one, sectors_of_both, EndsWithin};

use block::Block;
use entry::Entry;
use refusal::Refusal;
use sector::LABEL;
use sector_number::SectorNumber;
use two_runs::Runs;

// The digit of weight p to the power d of n in base p. Repeated division: the power itself may pass 64 bits.
fn digit(n: u64, p: u64, d: usize) -> u64
    requires { 0 < p }
    ensures { result ≡ n / p ^ d % p }
{
    let mut rest = n;
    for _ in 0..d {
        rest /= p;
    }
    rest % p
}

// The leaf in which an offset lies, from the score at the top level down; below a zero score it is the empty block. A block that is
// missing is refused: the look-up's refusal is handed on. So it is for every offset of that leaf.
pub fn descend<'a>(runs: Runs<'a>, e: Entry, offset: u64, top: &[u8]) -> Result<Block, Refusal>
    requires { EndsWithin runs × Open e offset × (length top.now ≡ 20) }
    ensures room { LiesIn (sectors_of_both runs.entry) result }
    ensures run { (page o : ℕ) → o / e.dsize ≡ offset / e.dsize → run_in page e o result
        ≡ under (read_as_one runs.entry) page e o e.depth top.now }
{
    let mut score = [0u8; 20];
    buffer::copy_at(&mut score, 0, top);
    let leaf = offset / e.dsize as u64;
    let p = (e.psize / 20) as u64;
    let mut level = e.depth;
    while 0 < level {
        if kind::is_zero_score(&score) {
            return Ok(Block {
                first: SectorNumber(0),
                size: 0,
                label: LABEL,
            });
        }
        let kind = tree::type_at(e, level);
        let b = lookup::fetch(runs, kind, &score, tree::count_at(e, level))?;
        if b.size % 20 != 0 {
            return Err(Refusal::Pointers);
        }
        level -= 1;
        let index = digit(leaf, p, level);
        score = tree::score_at(runs, b, index as usize);
    }
    lookup::fetch(runs, tree::type_at(e, 0), &score, e.dsize)
}
