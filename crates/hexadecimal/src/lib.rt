// Numbers and byte strings in lower-case hexadecimal.
#![tactic(auto)]

ghost use Rattle.std.specs.Prelude.{◌≡◌, ◌*◌, ◌<◌, ◌≤◌, true, length};
ghost use Rattle.hexadecimal.specs.Hex.{digit_char, char_digit, hex, is_hex, read_hex, hex_bytes, read_bytes, reading, read_hex_bytes};

// The character of a digit.
fn digit_char(d: u8) -> u8
    requires { d < 16 }
    ensures { result ≡ digit_char d }
{
    if d < 10 { b'0' + d } else { b'a' + (d - 10) }
}

// The digit of a character, and 16 of one that is none.
fn char_digit(c: u8) -> u8
    ensures { result ≡ char_digit c }
{
    match c {
        b'0'..=b'9' => c - b'0',
        b'a'..=b'f' => c - b'a' + 10,
        _ => 16,
    }
}

// The whole of d becomes the lowest hex digits of n, as many as d has.
pub fn put_hex(d: &mut [u8], n: u64)
    ensures { d.new ≡ hex (length d.old) n }
{
    let mut rest = n;
    for i in (0..d.len()).rev() {
        d[i] = digit_char((rest % 16) as u8);
        rest /= 16;
    }
}

// The number that at most sixteen hex digits make.
pub fn read_hex(s: &[u8]) -> Option<u64>
    requires { length s.now ≤ 16 }
    ensures { result ≡ read_hex s.now }
{
    let mut n: u64 = 0;
    for b in s {
        let k = char_digit(*b);
        if 15 < k {
            return None;
        }
        n = 16 * n + u64::from(k);
    }
    Some(n)
}

// The whole of d becomes the hex digits of the bytes b, two for each.
pub fn put_hex_bytes(d: &mut [u8], b: &[u8])
    requires { length d.old ≡ 2 * length b.now }
    ensures { d.new ≡ hex_bytes b.now }
{
    for (i, a) in b.iter().enumerate() {
        d[2 * i] = digit_char(*a / 16);
        d[2 * i + 1] = digit_char(*a % 16);
    }
}

// Whether all of s are hex digits.
fn is_hex(s: &[u8]) -> bool
    ensures { result ≡ is_hex s.now }
{
    s.iter().all(|b| char_digit(*b) < 16)
}

// The whole of d becomes the bytes that the hex digits s make, two for each.
fn fill_bytes(d: &mut [u8], s: &[u8])
    requires { (length s.now ≡ 2 * length d.old) × (is_hex s.now ≡ true) }
    ensures { d.new ≡ read_bytes s.now }
{
    for i in 0..d.len() {
        d[i] = 16 * char_digit(s[2 * i]) + char_digit(s[2 * i + 1]);
    }
}

// Reads d from hex digits, two for each byte; if one is no hex digit, d stays as it was.
pub fn read_hex_bytes(d: &mut [u8], s: &[u8]) -> bool
    requires { length s.now ≡ 2 * length d.old }
    ensures { reading result d.new ≡ read_hex_bytes s.now d.old }
{
    if !is_hex(s) {
        return false;
    }
    fill_bytes(d, s);
    true
}
