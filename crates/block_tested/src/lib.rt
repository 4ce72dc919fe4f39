// Whether the sectors of a block bear out what its first label says. The block is read from the first `end` sectors of a log and the sectors that wait
// behind them, read as one.
#![tactic(auto)]

ghost use Rattle.std.specs.Prelude.{◌≡◌, true, ◌+◌, ◌<◌, length};
ghost use Rattle.sector.specs.Sector.{front_of, date_field, lines_length};
ghost use Rattle.block.specs.Block.{Inside};
ghost use Rattle.block.specs.Log.{at, all};
ghost use Rattle.block_tested.specs.Tested.{sector_tests};
ghost use Rattle.digits.specs.Number.{small};
ghost use Rattle.two_runs.specs.Runs.{read_as_one, sectors_of_both, EndsWithin};

use block::Block;
pub use block_bytes::{copy_out, same_bytes};
pub use block_tests::{field_number, sector_at, used_part};
use sector::Label;
use sector_number::SectorNumber;
use two_runs::Runs;

// What lies in both is bytes: nothing is done, a caller learns it.
fn are_bytes(log: &[u8], waiting: &[u8])
    ensures log { small log.now ≡ true }
    ensures waiting { small waiting.now ≡ true }
{}

// Whether a block passes the tests of its sectors; `front` is the line of a date with which its first sector begins, or nothing.
pub fn passes<'a>(runs: Runs<'a>, front: &[u8], b: Block, kind: u8, score: &[u8]) -> bool
    requires { EndsWithin runs × (0 < b.size) × Inside (sectors_of_both runs) b × (length front.now + lines_length ≡ b.label)
        × (front.now ≡ front_of (date_field (at (read_as_one runs) b.first.0))) × (length score.now ≡ 20) }
    ensures { result ≡ all (sector_tests (read_as_one runs.entry) b kind score.now) }
{
    are_bytes(runs.log, runs.waiting);
    let first = b.first;
    let of = block::parts_of(b.label, b.size);
    // The first label tells most other blocks apart. Then the checks, which go through all bytes in order, and then all labels.
    let label = Label {
        first,
        part: 0,
        of,
        kind,
        size: b.size,
    };
    let s = block_tests::sector_at(runs, first);
    if !block_tests::has_label(s, front, label, score) {
        return false;
    }
    if !block_tests::checks_fit(runs, first, of) {
        return false;
    }
    if !block_tests::labels_agree(runs, front, b, kind, score) {
        return false;
    }
    if !block_tests::rest_is_zero(runs, b) {
        return false;
    }
    let d = block_bytes::digest(runs, b);
    buffer::equal(&d, score)
}
