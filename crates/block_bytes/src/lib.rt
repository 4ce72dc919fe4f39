// The bytes of a block where they lie, piece by piece: their digest, compared, copied out. The block is read from the first `end` sectors of a log and the
// sectors that wait behind them, read as one.
#![tactic(auto)]

ghost use Rattle.std.specs.Prelude.{◌≡◌, ◌≤◌, ◌<◌, length, take, drop};
ghost use Rattle.buffer.specs.Bytes.{same, put};
ghost use Rattle.sha1_digest.specs.Sha1.{sha1_of};
ghost use Rattle.sector.specs.Sector.{payload_of, body_length};
ghost use Rattle.block.specs.Block.{Inside};
ghost use Rattle.block.specs.Log.{at, bytes_of};
ghost use Rattle.two_runs.specs.Runs.{read_as_one, sectors_of_both, EndsWithin};

use block::Block;
use sector::BODY;
use sector_number::SectorNumber;
use two_runs::Runs;

// The payload of sector n behind a label of this length, or its first `size` bytes where these are fewer.
fn piece_at<'a>(runs: Runs<'a>, n: SectorNumber, label: usize, size: usize) -> &'a [u8]
    requires { EndsWithin runs × (n.0 < sectors_of_both runs) × (label ≤ body_length) }
    ensures { result.now ≡ take size (take (payload_of label) (drop label (at (read_as_one runs.entry) n.0))) }
{
    let s = two_runs::sector_at(runs, n);
    if block::payload_of(label) <= size {
        return &s[label..BODY];
    }
    let to = label + size;
    &s[label..to]
}

// The SHA-1 of a block's bytes, piece by piece where they lie.
pub fn digest<'a>(runs: Runs<'a>, b: Block) -> [u8; 20]
    requires { EndsWithin runs × Inside (sectors_of_both runs) b }
    ensures { result ≡ sha1_of (bytes_of (read_as_one runs.entry) b) }
{
    let mut n = b.first.0;
    let mut done: usize = 0;
    let mut s = sha1_digest::start();
    while done < b.size {
        let piece = piece_at(runs, SectorNumber(n), b.label, b.size - done);
        s = sha1_digest::absorb(s, piece);
        done += piece.len();
        n += 1;
    }
    sha1_digest::finish(s)
}

// Whether a block's bytes are those of `data`, piece by piece where they lie.
pub fn same_bytes<'a>(runs: Runs<'a>, b: Block, data: &[u8]) -> bool
    requires { EndsWithin runs × Inside (sectors_of_both runs) b × (b.size ≡ length «data».now) }
    ensures { result ≡ same (bytes_of (read_as_one runs.entry) b) «data».now }
{
    let mut n = b.first.0;
    let mut done: usize = 0;
    while done < data.len() {
        let piece = piece_at(runs, SectorNumber(n), b.label, data.len() - done);
        let next = done + piece.len();
        if !buffer::agree(piece, &data[done..next]) {
            return false;
        }
        done = next;
        n += 1;
    }
    true
}

// Writes a block's bytes to the front of d.
pub fn copy_out<'a>(runs: Runs<'a>, b: Block, d: &mut [u8])
    requires { EndsWithin runs × Inside (sectors_of_both runs) b × (b.size ≤ length d.old) }
    ensures { d.new ≡ put d.old 0 (bytes_of (read_as_one runs.entry) b) }
{
    let mut n = b.first.0;
    let mut done: usize = 0;
    while done < b.size {
        let piece = piece_at(runs, SectorNumber(n), b.label, b.size - done);
        buffer::copy_at(d, done, piece);
        done += piece.len();
        n += 1;
    }
}
