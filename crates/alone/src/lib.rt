// A block stored in a log for which nothing waits.
#![tactic(auto)]

ghost use Rattle.std.specs.Prelude.{◌≡◌, ◌≤◌, length};
ghost use Rattle.kind.specs.Kind.{longest};
ghost use Rattle.sector_log.specs.Parts.{alone};
ghost use Rattle.sector_log.specs.Store.{after_store};
ghost use Rattle.sector_log.specs.Store.{store as store_of};

use sector::SECTOR;
use sector_log::Receipt;
use sector_number::SectorNumber;
use two_runs::Runs;

// Stores a block of a type, with a date, in a log for which nothing waits: it is appended to the log itself.
pub fn store_alone(log: &mut [u8], date: &[u8], kind: u8, data: &[u8]) -> Receipt
    requires { (length «data».now ≤ longest) × (length date.now ≡ 8) }
    ensures { after_store result (alone log.new) ≡ store_of (alone log.old) date.now kind «data».now }
{
    let score = sha1_digest::sha1(data);
    let runs = Runs {
        log,
        end: SectorNumber(0),
        waiting: log,
    };
    let Some(b) = lookup::find_held(runs, kind, &score) else {
        let most = log.len() / SECTOR;
        let stored = insert::append_new(most, SectorNumber(0), log, date, kind, &score, data);
        return Receipt { score, stored };
    };
    let stored = store::compare(runs, b, data);
    Receipt { score, stored }
}
