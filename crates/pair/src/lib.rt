// One block of a pair that is opened.
#![tactic(auto)]

ghost use Rattle.std.specs.Prelude.{◌≡◌, ◌≤◌, length};
ghost use Rattle.pair.specs.Opened.{place_at};
ghost use Rattle.two_runs.specs.Runs.{read_as_one, EndsWithin};

use block::Block;
use entry::Entry;
use refusal::Refusal;
use sector_number::SectorNumber;
use two_runs::Runs;

// A block of an entry at a level: look-up with its count, and whole scores in a pointer block.
pub fn read_block<'a>(
    runs: Runs<'a>,
    e: Entry,
    score: &[u8],
    level: usize,
) -> Result<Block, Refusal>
    requires { EndsWithin runs × (length score.now ≡ 20) × (level ≤ 7) }
    ensures { result ≡ place_at (read_as_one runs.entry) e level score.now }
{
    let b = lookup::fetch(
        runs,
        tree::type_at(e, level),
        score,
        tree::count_at(e, level),
    )?;
    if level != 0 {
        if b.size % 20 != 0 {
            return Err(Refusal::Pointers);
        }
    }
    Ok(b)
}
