// The run of bytes in the leaf of an offset.
#![tactic(auto)]

ghost use Rattle.std.specs.Prelude.{◌≡◌, ◌^◌, ◌<◌};
ghost use Rattle.block.specs.Block.{Inside};
ghost use Rattle.block.specs.Log.{addressable};
ghost use Rattle.leaf.specs.Leaf.{zero_run, place_in, leaf_run};
ghost use Rattle.leaf.specs.Fetch.{LiesIn, run_in};
ghost use Rattle.sector.specs.Sector.{body_length};

use block::Block;
use entry::Entry;
use refusal::Refusal;
use sector::SECTOR;

// Where the run at an offset lies in one log of bytes: at a byte of it, or at the front of the page.
#[derive(Clone, Copy)]
pub enum Extent {
    Stored { at: usize, length: usize },
    Zeros { length: usize },
}

// Where byte k of the block at a place lies in the log.
fn place_in(b: Block, k: usize) -> usize
    requires { (place_in b k < 2 ^ 64) × (b.label < body_length) }
    ensures { result ≡ place_in b k }
{
    let p = block::payload_of(b.label);
    SECTOR * (b.first.0 + k / p) + (b.label + k % p)
}

// A run of zeros: the page's front, up to the end of page, leaf or file.
fn zero_run(page: usize, e: Entry, offset: u64) -> Result<Extent, Refusal>
    requires { (0 < e.dsize) × (offset < e.size) }
    ensures { result ≡ zero_run page e offset }
{
    let k = (offset % e.dsize as u64) as usize;
    Ok(Extent::Zeros {
        length: tree::least(page, e.dsize - k, e.size - offset),
    })
}

// The run in the leaf at a place: stored, up to the end of payload, block or file; past the block's end zeros.
fn leaf_run(page: usize, e: Entry, offset: u64, b: Block) -> Result<Extent, Refusal>
    requires { (0 < e.dsize) × (offset < e.size) × Inside addressable b }
    ensures { result ≡ leaf_run page e offset b }
{
    let k = (offset % e.dsize as u64) as usize;
    if b.size <= k {
        return zero_run(page, e, offset);
    }
    let p = block::payload_of(b.label);
    Ok(Extent::Stored {
        at: place_in(b, k),
        length: tree::least(p - k % p, b.size - k, e.size - offset),
    })
}

// The run in the leaf that was found, or why there is none.
pub fn run_in(
    look: Result<Block, Refusal>,
    page: usize,
    e: Entry,
    offset: u64,
) -> Result<Extent, Refusal>
    requires { (0 < e.dsize) × (offset < e.size) × LiesIn addressable look }
    ensures { result ≡ run_in page e offset look }
{
    leaf_run(page, e, offset, look?)
}
