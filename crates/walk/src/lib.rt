// Walking from a root score: every block below it is visited, in order, while the allowance lasts.
#![tactic(auto)]

ghost use Rattle.std.specs.Prelude.{◌≡◌, ◌≤◌, length};
ghost use Rattle.visit.specs.Visit.{end_number};
ghost use Rattle.walk.specs.Walk.{walk_top, walk_root, walk_of};
ghost use Rattle.two_runs.specs.Runs.{read_as_one, EndsWithin};

use entry::{ROOT_SCORE, ROOT_SCORE_END};
use kind::LONGEST;
use refusal::Refusal;
use sector_number::SectorNumber;
use two_runs::Runs;
use visit::Walked;

// The largest allowance.
pub const MOST_ALLOWANCE: u64 = 1000000;

// The number of how a walk ended: 0 for done.
pub fn number(end: Result<(), Refusal>) -> u8
    ensures { result ≡ end_number end }
{
    match end {
        Ok(()) => 0,
        Err(why) => refusal::number(why),
    }
}

// Visits a root's directory block, and what is below it.
fn walk_top<'a>(runs: Runs<'a>, score: &[u8], left: usize) -> Walked
    requires { EndsWithin runs × (length score.now ≡ 20) }
    ensures within { result.visits ≤ left }
    ensures exact { result ≡ walk_top (read_as_one runs.entry) score.now left }
{
    let m = visit::visit(runs, 1, left, 2, LONGEST, score);
    let Ok(b) = m.look else {
        return visit::answer(m);
    };
    visit::one_more(descend::visit_directory(runs, b, 1, left - 1))
}

// Visits a root, and what is below it. The score of the root before it isn't followed.
fn walk_root<'a>(runs: Runs<'a>, score: &[u8], left: usize) -> Walked
    requires { EndsWithin runs × (length score.now ≡ 20) }
    ensures { result ≡ walk_root (read_as_one runs.entry) score.now left }
{
    let m = visit::visit(runs, 0, left, 1, 300, score);
    let Ok(b) = m.look else {
        return visit::answer(m);
    };
    let root = visit::root_bytes(runs, b);
    if !entry::is_root(&root) {
        return Walked {
            visits: 1,
            end: Err(Refusal::Entry),
        };
    }
    visit::one_more(walk_top(runs, &root[ROOT_SCORE..ROOT_SCORE_END], left - 1))
}

// Walks from a root score, for any log, waiting part, score and allowance.
pub fn walk<'a>(log: &'a [u8], waiting: &'a [u8], score: &[u8; 20], allowance: u64) -> Walked
    ensures { result ≡ walk_of log.now waiting.now score.now allowance }
{
    if !visit::are_allowed(log.len(), waiting.len()) {
        return Walked {
            visits: 0,
            end: Err(Refusal::LogLength),
        };
    }
    if MOST_ALLOWANCE < allowance {
        return Walked {
            visits: 0,
            end: Err(Refusal::Allowance),
        };
    }
    let end = visit::border(log, waiting);
    walk_root(Runs { log, end, waiting }, score, allowance as usize)
}
