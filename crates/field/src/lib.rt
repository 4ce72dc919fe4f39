// Where a field of a message's body ends: a text, counted bytes, the five fields of a hello.
#![tactic(auto)]

ghost use Rattle.std.specs.Prelude.{◌≡◌, ◌≤◌, length};
ghost use Rattle.field.specs.Field.{head_length, text_end, counted_end, hello_end};

// The bytes before a message's body: size, type, tag.
pub const HEAD: usize = 4;

// Where the text at `at` ends: a two-byte count, and at most 1,024 bytes of UTF-8 without NUL.
fn text_end(m: &[u8], at: usize) -> Option<usize>
    requires { at ≤ length m.now }
    ensures { result ≡ text_end m.now at }
{
    if m.len() - at < 2 {
        return None;
    }
    let from = at + 2;
    let n = digits::be_number(&m[at..from]) as usize;
    if m.len() - from < n {
        return None;
    }
    if 1024 < n {
        return None;
    }
    let end = from + n;
    if utf8::is_well_formed(&m[from..end]) {
        Some(end)
    } else {
        None
    }
}

// Where the counted bytes at `at` end: a one-byte count, and as many bytes.
fn counted_end(m: &[u8], at: usize) -> Option<usize>
    requires { at ≤ length m.now }
    ensures { result ≡ counted_end m.now at }
{
    if m.len() - at < 1 {
        return None;
    }
    let from = at + 1;
    let n = m[at] as usize;
    if m.len() - from < n {
        return None;
    }
    Some(from + n)
}

// Where the body of a hello ends: version, uid, strength, crypto, codec.
pub fn hello_end(m: &[u8]) -> Option<usize>
    requires { head_length ≤ length m.now }
    ensures { result ≡ hello_end m.now }
{
    let version = text_end(m, HEAD)?;
    let uid = text_end(m, version)?;
    if m.len() - uid < 1 {
        return None;
    }
    let crypto = counted_end(m, uid + 1)?;
    counted_end(m, crypto)
}
