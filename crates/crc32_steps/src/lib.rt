// The steps of CRC-32: one byte by the table of bytes or by its digits, eight and sixteen bytes at once by the tables of their hexadecimal digits.
// The tables are lent: whoever makes one puts all of it on its stack.
#![tactic(auto)]

ghost use Rattle.std.specs.Prelude.{◌≡◌, ℕ, ◌+◌, ◌≤◌, length, take, drop};
ghost use Rattle.std.specs.Int.Bits.{bit_xor};
ghost use Rattle.crc32_rule.specs.Crc32.{bits, byte, table};
ghost use Rattle.crc32_rule.specs.Burst.{pack};
ghost use Rattle.crc32_tables.specs.Digits.{rows};

// The register after one more byte.
pub fn next(t: &[u32; 256], c: u32, b: u8) -> u32
    requires { t.now ≡ table }
    ensures { result ≡ byte c b }
{
    let x = c ^ (b as u32);
    (x >> 8) ^ t[(x & 255) as usize]
}

// The same by the two rows of `high` that are of the last byte's digits.
pub fn next_by_digits(high: &[u32; 256], c: u32, b: u8) -> u32
    requires { high.now ≡ rows 0 16 }
    ensures { result ≡ byte c b }
{
    let x = c ^ (b as u32);
    (x >> 8) ^ (high[240 + ((x >> 4) % 16) as usize] ^ high[224 + (x % 16) as usize])
}

// The number of the four bytes from i on, the first one the lowest.
fn half(s: &[u8], i: usize) -> u32
    requires { i + 4 ≤ length s.now }
    ensures { result ≡ pack (take 4 (drop i s.now)) }
{
    (((s[i + 3] as u32) * 256 + (s[i + 2] as u32)) * 256 + (s[i + 1] as u32)) * 256 + (s[i] as u32)
}

// The number of the eight bytes from i on, the first one the lowest.
pub fn number(s: &[u8], i: usize) -> u64
    requires { i + 8 ≤ length s.now }
    ensures { result ≡ pack (take 8 (drop i s.now)) }
{
    let high = half(s, i + 4);
    let low = half(s, i);
    (high as u64) * 0x1_0000_0000 + (low as u64)
}

// The register c, and x beside it: each of its digits is divided by its own row of t. From the highest digit down, since
// the lower ones wait for the register.
fn divide(t: &[u32; 256], c: u32, x: u64) -> u32
    ensures { (b : ℕ) → t.now ≡ rows b 16 → result ≡ bit_xor c (bits (b + 64) x) }
{
    let mut r = c;
    for j in (0..16).rev() {
        r = r ^ t[16 * j + ((x >> (4 * j)) % 16) as usize];
    }
    r
}

// The register after eight bytes, from the register c, where v is their number.
pub fn eight(high: &[u32; 256], c: u32, v: u64) -> u32
    requires { high.now ≡ rows 0 16 }
    ensures { result ≡ bits 64 (bit_xor v c) }
{
    divide(high, 0, v ^ (c as u64))
}

// The register after sixteen bytes, from the register c, where v is the number of the first eight and w of the last.
// The last eight go first: they don't wait for the register.
pub fn sixteen(low: &[u32; 256], high: &[u32; 256], c: u32, v: u64, w: u64) -> u32
    requires { (low.now ≡ rows 64 16) × (high.now ≡ rows 0 16) }
    ensures { result ≡ bits 64 (bit_xor w (bits 64 (bit_xor v c))) }
{
    let r = divide(high, 0, w);
    divide(low, r, v ^ (c as u64))
}
