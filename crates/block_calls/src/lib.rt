// Blocks by themselves: their types, and the zeros at their ends.
#![tactic(auto)]

ghost use Rattle.std.specs.Prelude.{◌≡◌, length};
ghost use Rattle.kind.specs.Kind.{wire_type};
ghost use Rattle.cut.specs.Cut.{cut_of};
ghost use Rattle.cut.specs.Pad.{pad_of};
ghost use Rattle.block_calls.specs.Blocks.{type_result, cut_result, pad_number, padded_buffer, pad_result};

use refusal::Refusal;

// The block type of a number of the enumeration: 256 times the type, or the number of the refusal.
pub fn block_type(e: u64) -> u32
    ensures { result ≡ type_result (wire_type e) }
{
    match kind::wire_type(e) {
        Ok(kind) => 256 * (kind as u32),
        Err(why) => refusal::number(why) as u32,
    }
}

// The number of a padding: 0 where it is done.
fn pad_number(padded: Result<(), Refusal>) -> u32
    ensures { result ≡ pad_number padded }
{
    match padded {
        Ok(()) => 0,
        Err(why) => refusal::number(why) as u32,
    }
}

// Pads the block of `len` bytes at the front of the buffer to the target. The result is the number of the refusal, 0 for none.
pub fn pad(kind: u8, buffer: &mut [u8], len: usize, target: usize) -> u32
    ensures { padded_buffer result buffer.new ≡ pad_result (pad_of kind buffer.old len target) }
{
    pad_number(cut::pad(kind, buffer, len, target))
}

// The length of a block once it is cut; a refusal is the block's length and its number.
pub fn cut(kind: u8, block: &[u8]) -> usize
    ensures { result ≡ cut_result (length block.now) (cut_of kind block.now) }
{
    let kept = cut::cut(kind, block);
    match kept {
        Ok(n) => n,
        Err(why) => block.len() + refusal::number(why) as usize,
    }
}
