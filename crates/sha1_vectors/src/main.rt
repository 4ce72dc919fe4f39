// Prints digests that FIPS 180-4's examples and other implementations of SHA-1 give too.
#![tactic(auto)]

ghost use Rattle.std.specs.Prelude.{◌<◌, ◌≤◌};

use std::io;

// A digest as a line of hexadecimal digits.
fn print_digest(rt: &impl Print, d: [u8; 20]) -> io::Result<()> {
    for b in d {
        print!(rt; "{b:02x}")?;
    }
    println!(rt;)
}

fn print_sha1(rt: &impl Print, m: &[u8]) -> io::Result<()> {
    print_digest(rt, sha1_digest::sha1(m))
}

// The digest of the bytes 0, 1, 2 .. of which there are n: the lengths about the end of a block.
fn print_counted(rt: &impl Print, n: usize) -> io::Result<()>
    requires { n ≤ 128 }
{
    let mut m = [0u8; 128];
    for (i, b) in m.iter_mut().enumerate() {
        *b = i as u8;
    }
    print_sha1(rt, &m[..n])
}

// The lengths of the pieces, one after the other.
fn uneven(turn: usize) -> usize
    ensures { (0 < result) × (result ≤ 1000) }
{
    match turn % 7 {
        0 => 1,
        1 => 63,
        2 => 64,
        3 => 65,
        4 => 403,
        5 => 1000,
        _ => 7,
    }
}

// The length of the next piece of what is left.
fn next(turn: usize, left: usize) -> usize
    requires { 0 < left }
    ensures { (0 < result) × (result ≤ 1000) × (result ≤ left) }
{
    uneven(turn).min(left)
}

// The digest of a million bytes `a` that come in pieces.
fn print_million(rt: &impl Print) -> io::Result<()> {
    let a = [b'a'; 1000];
    let mut s = sha1_digest::start();
    let mut left: usize = 1000000;
    let mut turn = 0;
    while left > 0 {
        let n = next(turn, left);
        s = sha1_digest::absorb(s, &a[..n]);
        left -= n;
        turn += 1;
    }
    print_digest(rt, sha1_digest::finish(s))
}

fn main(rt: HostRuntime) -> io::Result<()> {
    print_sha1(&rt, b"")?;
    print_sha1(&rt, b"abc")?;
    print_sha1(
        &rt,
        b"abcdbcdecdefdefgefghfghighijhijkijkljklmklmnlmnomnopnopq",
    )?;
    print_sha1(
        &rt,
        b"abcdefghbcdefghicdefghijdefghijkefghijklfghijklmghijklmnhijklmnoijklmnopjklmnopqklmnopqrlmnopqrsmnopqrstnopqrstu",
    )?;
    print_million(&rt)?;
    print_counted(&rt, 55)?;
    print_counted(&rt, 56)?;
    print_counted(&rt, 63)?;
    print_counted(&rt, 64)?;
    print_counted(&rt, 65)?;
    print_counted(&rt, 119)?;
    print_counted(&rt, 120)
}
