// 32-bit words as FIPS 180-4 uses them.
#![tactic(auto)]

ghost use Rattle.std.specs.Prelude.{◌≡◌, ◌<◌};
ghost use Rattle.word.specs.Word.{rot_l, add32, be32};

// ROTL^n(x), section 2.2.2.
pub fn rotate_left(x: u32, n: u32) -> u32
    requires { (0 < n) × (n < 32) }
    ensures { result ≡ rot_l n x }
{
    x.rotate_left(n)
}

// Addition modulo 2^32, section 2.2.2.
pub fn add(x: u32, y: u32) -> u32
    ensures { result ≡ add32 x y }
{
    x.wrapping_add(y)
}

// The word of four bytes, the highest first, section 3.1.
pub fn word(a: u8, b: u8, c: u8, d: u8) -> u32
    ensures { result ≡ be32 a b c d }
{
    (a as u32) * 0x100_0000 + (b as u32) * 0x1_0000 + (c as u32) * 0x100 + (d as u32)
}
