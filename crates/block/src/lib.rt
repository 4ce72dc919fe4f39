// A block at its place in the log, what a write of it makes, and what makes it sound: specs/ has the definitions, proofs/ their laws.
// All that runs here is the count of a block's sectors.
#![tactic(auto)]

ghost use Rattle.std.specs.Prelude.{◌≡◌, ◌+◌, ◌^◌, ◌≤◌, ◌<◌};
ghost use Rattle.sector.specs.Sector.{payload_of, body_length};
ghost use Rattle.block.specs.Block.{parts_of};

pub use sector::{BODY, SECTOR};
use sector_number::SectorNumber;

// Where a block stands: its first sector, its size in bytes, and how long its sectors' labels are.
#[derive(Clone, Copy)]
pub struct Block {
    pub first: SectorNumber,
    pub size: usize,
    pub label: usize,
}

// How many bytes of a block a sector holds behind a label.
pub fn payload_of(label: usize) -> usize
    requires { label ≤ body_length }
    ensures { result ≡ payload_of label }
{
    BODY - label
}

// How many sectors `size` bytes take, behind labels of this length.
pub fn parts_of(label: usize, size: usize) -> usize
    requires { (label < body_length) × (size + body_length < 2 ^ 64) }
    ensures { result ≡ parts_of (payload_of label) size }
{
    let p = payload_of(label);
    (size + (p - 1)) / p
}
