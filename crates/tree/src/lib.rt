// What reading a file and walking share: parts of a block copied out, the scores of a pointer block, an entry's blocks by their level.
// A block lies in two runs of sectors that are read as one, as in `two_runs`.
#![tactic(auto)]

ghost use Rattle.std.specs.Prelude.{◌≡◌, ◌+◌, ◌-◌, ◌%◌, ◌^◌, ◌≤◌, ◌<◌, min, length, take, drop};
ghost use Rattle.sector.specs.Sector.{payload_of, filled};
ghost use Rattle.block.specs.Block.{Inside};
ghost use Rattle.block.specs.Log.{bytes_of};
ghost use Rattle.tree.specs.Tree.{type_at, count_at, pointer};
ghost use Rattle.two_runs.specs.Runs.{read_as_one, sectors_of_both, EndsWithin};

use block::Block;
use entry::Entry;
use sector_number::SectorNumber;
use two_runs::Runs;

// The least of three.
pub fn least(a: usize, b: usize, c: u64) -> usize
    ensures { result ≡ min a (min b c) }
{
    c.min(a.min(b) as u64) as usize
}

// The bytes of a block from byte k on, where they lie: up to the end of the payload, of the block or of the room.
fn piece_from<'a>(runs: Runs<'a>, b: Block, k: usize, room: usize) -> &'a [u8]
    requires { EndsWithin runs × Inside (sectors_of_both runs) b × (k < b.size) }
    ensures { result.now ≡ take (min (payload_of b.label - k % payload_of b.label) (min (b.size - k) room)) (drop k (bytes_of (read_as_one runs.entry) b)) }
{
    let p = block::payload_of(b.label);
    let at = k % p;
    let n = b.first.0 + k / p;
    let s = reader::sector_at(runs, SectorNumber(n));
    let from = b.label + at;
    let to = from + least(p - at, b.size - k, room as u64);
    &s[from..to]
}

// Fills d with the bytes of a block from `from` on, and zeros past its end: payload by payload.
pub fn read_part<'a>(runs: Runs<'a>, b: Block, from: usize, d: &mut [u8])
    requires { EndsWithin runs × Inside (sectors_of_both runs) b × (from + length d.old < 2 ^ 64) }
    ensures { d.new ≡ filled (length d.old) (drop from (bytes_of (read_as_one runs.entry) b)) }
{
    let mut done: usize = 0;
    while done < d.len() {
        let k = from + done;
        if b.size <= k {
            buffer::clear(&mut d[done..]);
            return;
        }
        let piece = piece_from(runs, b, k, d.len() - done);
        buffer::copy_at(d, done, piece);
        done += piece.len();
    }
}

// Score i of a pointer block; past its end the zero score.
pub fn score_at<'a>(runs: Runs<'a>, b: Block, i: usize) -> [u8; 20]
    requires { EndsWithin runs × Inside (sectors_of_both runs) b × (b.size % 20 ≡ 0) × (i < 2 ^ 32) }
    ensures { result ≡ pointer (bytes_of (read_as_one runs.entry) b) i }
{
    let from = 20 * i;
    if b.size <= from {
        return kind::zero_score();
    }
    let mut d = [0u8; 20];
    read_part(runs, b, from, &mut d);
    d
}

// The type of an entry's blocks at a level.
pub fn type_at(e: Entry, level: usize) -> u8
    requires { level ≤ 7 }
    ensures { result ≡ type_at e level }
{
    if level == 0 {
        if e.directory {
            return 2;
        }
        return 13;
    }
    (2 + level) as u8
}

// The longest that an entry's blocks may be at a level.
pub fn count_at(e: Entry, level: usize) -> usize
    ensures { result ≡ count_at e level }
{
    if level == 0 {
        return e.dsize;
    }
    e.psize
}
