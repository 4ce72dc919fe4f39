// A root and its directory block copied into a second log, each behind all that is below it.
// The first log and the sectors that wait behind it are two runs that are read as one, as in `two_runs`.
#![tactic(auto)]

ghost use Rattle.std.specs.Prelude.{◌≡◌, ◌≤◌, length};
ghost use Rattle.copying.specs.Copy.{copied, copy_top, copy_root};
ghost use Rattle.copying.specs.Parts.{copy_below_root};
ghost use Rattle.two_runs.specs.Runs.{read_as_one, EndsWithin};

use entry::{ROOT_SCORE, ROOT_SCORE_END};
use kind::LONGEST;
use refusal::Refusal;
use sector_number::SectorNumber;
use two_runs::Runs;
use visit::Walked;

// Copies a root's directory block, behind what is below it.
fn copy_top<'a>(runs: Runs<'a>, second: &mut [u8], date: &[u8], score: &[u8], left: usize) -> Walked
    requires { EndsWithin runs × (length score.now ≡ 20) × (length date.now ≡ 8) }
    ensures within { result.visits ≤ left }
    ensures exact { copied result second.new ≡ copy_top (read_as_one runs.entry) date.now score.now left second.old }
{
    let m = visit::visit(runs, 1, left, 2, LONGEST, score);
    let Ok(b) = m.look else {
        return visit::answer(m);
    };
    let below = copy_below::copy_directory(runs, second, date, b, 1, left - 1);
    copy_below::keep(runs, second, date, 2, b, below)
}

// Copies what a root leads to, by its bytes: its directory block. The score of the root before it isn't followed.
fn below_root<'a>(
    runs: Runs<'a>,
    second: &mut [u8],
    date: &[u8],
    root: &[u8],
    left: usize,
) -> Walked
    requires { EndsWithin runs × (length date.now ≡ 8) × (length root.now ≡ 300) }
    ensures within { result.visits ≤ left }
    ensures exact { copied result second.new
        ≡ copy_below_root (read_as_one runs.entry) date.now left root.now second.old }
{
    if !entry::is_root(root) {
        return Walked {
            visits: 0,
            end: Err(Refusal::Entry),
        };
    }
    copy_top(runs, second, date, &root[ROOT_SCORE..ROOT_SCORE_END], left)
}

// Copies a root, behind all that it reaches.
pub fn copy_root<'a>(
    runs: Runs<'a>,
    second: &mut [u8],
    date: &[u8],
    score: &[u8],
    left: usize,
) -> Walked
    requires { EndsWithin runs × (length score.now ≡ 20) × (length date.now ≡ 8) }
    ensures { copied result second.new ≡ copy_root (read_as_one runs.entry) date.now score.now left second.old }
{
    let m = visit::visit(runs, 0, left, 1, 300, score);
    let Ok(b) = m.look else {
        return visit::answer(m);
    };
    let root = visit::root_bytes(runs, b);
    let below = below_root(runs, second, date, &root, left - 1);
    copy_below::keep(runs, second, date, 1, b, below)
}
