// Blocks by themselves: their types, and the zeros at their ends.
ghost use Rattle.std.specs.Prelude.{◌≡◌, length};
ghost use Rattle.kind.specs.Kind.{wire_type};
ghost use Rattle.cut.specs.Cut.{cut_of};
ghost use Rattle.cut.specs.Pad.{pad_of};
ghost use Rattle.block_calls.specs.Blocks;

// The block type of a number of the enumeration: 256 times the type, or the number of the refusal.
#[unsafe(no_mangle)]
pub extern "C" fn skywimple_block_type(e: u64) -> u32
    ensures { result ≡ Blocks.type_result (wire_type e) }
{
    block_calls::block_type(e)
}

// Pads the block of `len` bytes at the front of the buffer to the target. The result is the number of the refusal, 0 for none.
#[unsafe(no_mangle)]
pub extern "C" fn skywimple_pad(kind: u8, buffer: &mut [u8], len: usize, target: usize) -> u32
    ensures { Blocks.padded_buffer result buffer.new ≡ Blocks.pad_result (pad_of kind buffer.old len target) }
{
    block_calls::pad(kind, buffer, len, target)
}

// The length of a block once it is cut; a refusal is the block's length and its number.
#[unsafe(no_mangle)]
pub extern "C" fn skywimple_cut(kind: u8, block: &[u8]) -> usize
    ensures { result ≡ Blocks.cut_result (length block.now) (cut_of kind block.now) }
{
    block_calls::cut(kind, block)
}
