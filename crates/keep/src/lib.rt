// A block of a copy, stored in the second log behind all that is below it.
// The first log and the sectors that wait behind it are two runs that are read as one, as in `two_runs`.
#![tactic(auto)]

ghost use Rattle.std.specs.Prelude.{◌≡◌, ℕ, ◌+◌, ◌≤◌, ◌<◌, ◌^◌, length};
ghost use Rattle.kind.specs.Kind.{longest};
ghost use Rattle.block.specs.Block.{Inside};
ghost use Rattle.block.specs.Log.{bytes_of};
ghost use Rattle.sector_log.specs.Parts.{alone};
ghost use Rattle.sector_log.specs.Store.{store as store_of};
ghost use Rattle.visit.specs.Visit.{walked};
ghost use Rattle.copying.specs.Copy.{copied, store_end, stored_in, kept};
ghost use Rattle.two_runs.specs.Runs.{read_as_one, sectors_of_both, EndsWithin};

use block::Block;
use kind::LONGEST;
use refusal::Refusal;
use sector_log::Stored;
use sector_number::SectorNumber;
use two_runs::Runs;
use visit::Walked;

// How a copy goes on behind a store in the second log.
fn end_of(stored: Result<Stored, Refusal>) -> Result<(), Refusal>
    ensures { result ≡ store_end stored }
{
    match stored {
        Ok(Stored::New(_)) => Ok(()),
        Ok(Stored::Duplicate(_)) => Ok(()),
        Err(why) => Err(why),
    }
}

// Stores a block of the first log in the second, byte for byte as it lies there.
fn store_block<'a>(
    runs: Runs<'a>,
    second: &mut [u8],
    date: &[u8],
    kind: u8,
    b: Block,
) -> Result<(), Refusal>
    requires { EndsWithin runs × Inside (sectors_of_both runs) b × (b.size ≤ longest) × (length date.now ≡ 8) }
    ensures { (n : ℕ) → copied (walked n result) second.new
        ≡ stored_in n (store_of (alone second.old) date.now kind (bytes_of (read_as_one runs.entry) b)) }
{
    let mut page = [0u8; LONGEST];
    reader::copy_out(runs, b, &mut page);
    let receipt = alone::store_alone(second, date, kind, &page[..b.size]);
    let stored = receipt.stored;
    end_of(stored)
}

// A block behind all that is below it: stored if that is done. Its own visit is counted here.
pub fn keep<'a>(
    runs: Runs<'a>,
    second: &mut [u8],
    date: &[u8],
    kind: u8,
    b: Block,
    below: Walked,
) -> Walked
    requires { EndsWithin runs × Inside (sectors_of_both runs) b × (b.size ≤ longest) × (length date.now ≡ 8) × (below.visits + 1 < 2 ^ 64) }
    ensures count { result.visits ≡ below.visits + 1 }
    ensures exact { copied result second.new
        ≡ kept date.now kind (bytes_of (read_as_one runs.entry) b) (copied below second.old) }
{
    let ended = below.end;
    let visits = below.visits + 1;
    let Ok(()) = ended else {
        return Walked { visits, end: ended };
    };
    let stored = store_block(runs, second, date, kind, b);
    Walked {
        visits,
        end: stored,
    }
}
