// Block types, the turning of the enumeration into them, and the zero score.
#![tactic(auto)]

ghost use Rattle.std.specs.Prelude.{◌≡◌};
ghost use Rattle.buffer.specs.Bytes.{same};
ghost use Rattle.kind.specs.Kind.{lawful, is_pointer, zero_score, wire_type};

use refusal::Refusal;

// The most bytes that a block has.
pub const LONGEST: usize = 57344;

// Whether a number is one of the ten block types.
pub fn is_lawful(kind: u8) -> bool
    ensures { result ≡ lawful kind }
{
    matches!(kind, 1..=9 | 13)
}

// Whether a block type is one whose blocks are scores.
pub fn is_pointer(kind: u8) -> bool
    ensures { result ≡ is_pointer kind }
{
    matches!(kind, 3..=9)
}

// The block type of a number of the enumeration.
pub fn wire_type(e: u64) -> Result<u8, Refusal>
    ensures { result ≡ wire_type e }
{
    match e {
        0 => Ok(13),
        1..=7 => Ok((e + 2) as u8),
        8 => Ok(2),
        9..=15 => Ok((e - 6) as u8),
        16 => Ok(1),
        _ => Err(Refusal::BlockType),
    }
}

// The score of the empty block.
pub fn zero_score() -> [u8; 20]
    ensures { result ≡ zero_score }
{
    [
        0xda, 0x39, 0xa3, 0xee, 0x5e, 0x6b, 0x4b, 0x0d, 0x32, 0x55, 0xbf, 0xef, 0x95, 0x60, 0x18,
        0x90, 0xaf, 0xd8, 0x07, 0x09,
    ]
}

// Whether bytes are the score of the empty block. Nearly all that aren't differ in the first byte.
pub fn is_zero_score(s: &[u8]) -> bool
    ensures { result ≡ same s.now zero_score }
{
    match s {
        [0xda, ..] => buffer::equal(s, &zero_score()),
        _ => false,
    }
}
