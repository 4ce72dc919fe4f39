// Byte buffers: compared, tested for zeros, and written in part.
#![tactic(auto)]

ghost use Rattle.std.specs.Prelude.{◌≡◌, ◌+◌, ◌≤◌, length, replicate};
ghost use Rattle.buffer.specs.Bytes.{same, zeros, put};

// Whether two buffers hold the same bytes.
pub fn equal(a: &[u8], b: &[u8]) -> bool
    ensures { result ≡ same a.now b.now }
{
    a == b
}

// The same test, for bytes that are most often the same. No way out before the end: the compiler makes vector code of it.
pub fn agree(a: &[u8], b: &[u8]) -> bool
    ensures { result ≡ same a.now b.now }
{
    if b.len() != a.len() {
        return false;
    }
    let mut differ: u8 = 0;
    for i in 0..a.len() {
        differ |= a[i] ^ b[i];
    }
    differ == 0
}

// Whether all bytes are zeros. No way out before the end: the compiler makes vector code of it.
pub fn is_zero(s: &[u8]) -> bool
    ensures { result ≡ zeros s.now }
{
    let mut seen: u8 = 0;
    for b in s {
        seen |= *b;
    }
    seen == 0
}

// Writes s into d from `at` on; the rest of d stays. No `copy_from_slice`: with it the archive for C needs `memmove` from outside.
pub fn copy_at(d: &mut [u8], at: usize, s: &[u8])
    requires { at + length s.now ≤ length d.old }
    ensures { d.new ≡ put d.old at s.now }
{
    for i in 0..s.len() {
        d[at + i] = s[i];
    }
}

// Sets every byte of d to zero.
pub fn clear(d: &mut [u8])
    ensures { d.new ≡ replicate (length d.old) 0 }
{
    d.fill(0);
}
