// What is known of a log, its waiting part and an index, learned from their bytes.
#![tactic(auto)]

ghost use Rattle.std.specs.Prelude.{◌≡◌};
ghost use Rattle.known.specs.Known.{doubt_of, learned};
ghost use Rattle.two_runs.specs.Runs.{read_as_one, EndsWithin};

use known::Known;
use refusal::Refusal;
use sector_number::SectorNumber;
use two_runs::Runs;

// The first doubtful sector of both, or none.
fn find_doubt<'a>(runs: Runs<'a>) -> Option<SectorNumber>
    requires { EndsWithin runs }
    ensures { result ≡ doubt_of (read_as_one runs.entry) }
{
    let why = lookup::why_absent(runs);
    if let Refusal::NotKnown(n) = why {
        return Some(n);
    }
    None
}

// All that is known, learned from any bytes: what a server does when it opens a log, and after whatever else changed one.
pub fn learn<'a>(log: &'a [u8], waiting: &'a [u8], index: &[u8]) -> Known
    ensures { result ≡ learned log.now waiting.now index.now }
{
    let used = reader::used_part(log);
    let waits = reader::used_part(waiting);
    let doubt = find_doubt(Runs {
        log,
        end: used,
        waiting,
    });
    let exact = exact_index::is_exact(
        Runs {
            log,
            end: used,
            waiting,
        },
        index,
    );
    Known {
        used,
        waits,
        doubt,
        exact,
    }
}
