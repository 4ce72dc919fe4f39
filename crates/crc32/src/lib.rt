// CRC-32 of IEEE 802.3: sixteen bytes at once, what is left eight at once and one by one; below 128 bytes eight at once, below 16 one by one, by the table of bytes.
#![tactic(auto)]

ghost use Rattle.std.specs.Prelude.{◌≡◌, ◌%◌, length};
ghost use Rattle.crc32_rule.specs.Crc32.{feed, crc32_of};
ghost use Rattle.crc32_tables.specs.Digits.{rows};

// The register after the bytes s, from the register c, one by one.
fn update(c: u32, s: &[u8]) -> u32
    ensures { result ≡ feed c s.now }
{
    let t = crc32_tables::bytes::table();
    s.iter().fold(c, |r, b| crc32_steps::next(&t, r, *b))
}

// The register after the bytes s, from the register c, eight at a time.
fn eights(high: &[u32; 256], c: u32, s: &[u8]) -> u32
    requires { (high.now ≡ rows 0 16) × (length s.now % 8 ≡ 0) }
    ensures { result ≡ feed c s.now }
{
    let mut r = c;
    for k in 0..s.len() / 8 {
        let v = crc32_steps::number(s, 8 * k);
        r = crc32_steps::eight(high, r, v);
    }
    r
}

// The register after the bytes s, from the register c, one by one, by their digits.
fn singles(high: &[u32; 256], c: u32, s: &[u8]) -> u32
    requires { high.now ≡ rows 0 16 }
    ensures { result ≡ feed c s.now }
{
    s.iter()
        .fold(c, |r, b| crc32_steps::next_by_digits(high, r, *b))
}

// The register after the bytes s, from the register c: whole eights, and what is left one by one.
fn rest(high: &[u32; 256], c: u32, s: &[u8]) -> u32
    requires { high.now ≡ rows 0 16 }
    ensures { result ≡ feed c s.now }
{
    let whole = s.len() / 8 * 8;
    let r = eights(high, c, &s[..whole]);
    singles(high, r, &s[whole..])
}

// The register after the bytes s, from the register c, sixteen at a time.
fn sixteens(low: &[u32; 256], high: &[u32; 256], c: u32, s: &[u8]) -> u32
    requires { (low.now ≡ rows 64 16) × (high.now ≡ rows 0 16) × (length s.now % 16 ≡ 0) }
    ensures { result ≡ feed c s.now }
{
    let mut r = c;
    for k in 0..s.len() / 16 {
        let first = crc32_steps::number(s, 16 * k);
        let last = crc32_steps::number(s, 16 * k + 8);
        r = crc32_steps::sixteen(low, high, r, first, last);
    }
    r
}

// The CRC-32 of s by the tables of digits, which are lent: whoever has many strings makes them once.
pub fn by_digits(low: &[u32; 256], high: &[u32; 256], s: &[u8]) -> u32
    requires { (low.now ≡ rows 64 16) × (high.now ≡ rows 0 16) }
    ensures { result ≡ crc32_of s.now }
{
    let whole = s.len() / 16 * 16;
    let r = sixteens(low, high, 0xffff_ffff, &s[..whole]);
    rest(high, r, &s[whole..]) ^ 0xffff_ffff
}

// The CRC-32 of s. A short string goes by the table of bytes, and one below 128 bytes by one table of digits: a second costs more than it gains.
pub fn crc32(s: &[u8]) -> u32
    ensures { result ≡ crc32_of s.now }
{
    if s.len() < 16 {
        return update(0xffff_ffff, s) ^ 0xffff_ffff;
    }
    let high = crc32_tables::digits::high();
    if s.len() < 128 {
        return rest(&high, 0xffff_ffff, s) ^ 0xffff_ffff;
    }
    by_digits(&crc32_tables::digits::low(), &high, s)
}
