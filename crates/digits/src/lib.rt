// Numbers as bytes, the highest first, of any width.
#![tactic(auto)]

ghost use Rattle.std.specs.Prelude.{◌≡◌, ◌≤◌, length};
ghost use Rattle.digits.specs.Number.{be_bytes, be_number};

// The number that at most eight bytes make.
pub fn be_number(s: &[u8]) -> u64
    requires { length s.now ≤ 8 }
    ensures { result ≡ be_number s.now }
{
    let mut n: u64 = 0;
    for b in s {
        n = 256 * n + u64::from(*b);
    }
    n
}

// The whole of d becomes the lowest bytes of n, as many as d has.
pub fn put_be(d: &mut [u8], n: u64)
    ensures { d.new ≡ be_bytes (length d.old) n }
{
    let mut rest = n;
    for i in (0..d.len()).rev() {
        d[i] = (rest % 256) as u8;
        rest /= 256;
    }
}
