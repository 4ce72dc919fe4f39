// A block among the log's own sectors, found without a look at those that wait.
#![tactic(auto)]

ghost use Rattle.std.specs.Prelude.{◌≡◌, length};
ghost use Rattle.block.specs.declared.Block.{Block};
ghost use Rattle.settled_lookup.specs.Settled.{FoundSettled};

use block::Block;
use sector::SECTOR;
use sector_number::SectorNumber;
use two_runs::Runs;

// The block to which the first entry leads that names the score and type, or where none does the first by scan, if it is among the log's own sectors: then nobody
// needs to look at those that wait.
pub fn find_settled(log: &[u8], index: &[u8], kind: u8, score: &[u8]) -> Option<Block>
    requires { length score.now ≡ 20 }
    ensures { (b : Block) → result ≡ Some b → FoundSettled log.now index.now kind score.now b }
{
    if kind::is_zero_score(score) {
        return None;
    }
    let end = log.len() / SECTOR;
    let b = index::bucket_of(index, score);
    let to = b.to;
    for p in b.from..to {
        if index::names(index, p, kind, score) {
            let first = index::sector_at(index, p);
            if end <= first.0 {
                return None;
            }
            return reader::sound_as(
                Runs {
                    log,
                    end: SectorNumber(end),
                    waiting: &log[..0],
                },
                first,
                kind,
                score,
            );
        }
    }
    lookup::find_held(
        Runs {
            log,
            end: SectorNumber(end),
            waiting: &log[..0],
        },
        kind,
        score,
    )
}
