// SHA-1 (FIPS 180-4): of a message at once, and of one that comes in pieces.
#![tactic(auto)]

ghost use Rattle.std.specs.Prelude.{◌≡◌, List, [], ◌++◌, ℕ};
ghost use Rattle.sha1_digest.specs.Sha1.{digest_of, sha1_of};
ghost use Rattle.sha1_digest.specs.Stream.{Holds};

use sha1_block::Hash;

// A message that is being taken in: the hash value of its whole blocks, the bytes after them in a
// block, and its length.
#[derive(Clone, Copy)]
pub struct Stream {
    h: Hash,
    buf: [u8; 64],
    len: u64,
}

// A stream counts its bytes modulo 2^61, and so its bits modulo 2^64.
const COUNTS: u64 = 0x2000_0000_0000_0000;

// The stream of no bytes.
pub fn start() -> Stream
    ensures { Holds result [] }
{
    Stream {
        h: sha1_block::first(),
        buf: [0u8; 64],
        len: 0,
    }
}

// Takes more bytes in: at once as many as have room in a block, or all that are left. A whole block that comes where no bytes wait is not copied.
pub fn absorb(s: Stream, more: &[u8]) -> Stream
    ensures { (m : List ℕ) → Holds s m → Holds result (m ++ more.now) }
{
    let mut h = s.h;
    let mut buf = s.buf;
    let mut n = (s.len % 64) as usize;
    let mut i = 0;
    while i < more.len() {
        let k = (64 - n).min(more.len() - i);
        let end = i + k;
        if k == 64 {
            h = sha1_block::compress(h, &more[i..end]);
            i = end;
            continue;
        }
        buffer::copy_at(&mut buf, n, &more[i..end]);
        n += k;
        i = end;
        if n == 64 {
            h = sha1_block::compress(h, &buf);
            n = 0;
        }
    }
    let count = s.len % COUNTS + (i as u64) % COUNTS;
    Stream {
        h,
        buf,
        len: count % COUNTS,
    }
}

// The words of a hash value as bytes.
fn digest_bytes(h: Hash) -> [u8; 20]
    ensures { result ≡ digest_of h }
{
    let mut d = [0u8; 20];
    sha1_bytes::put_word(&mut d, 0, h.a);
    sha1_bytes::put_word(&mut d, 1, h.b);
    sha1_bytes::put_word(&mut d, 2, h.c);
    sha1_bytes::put_word(&mut d, 3, h.d);
    sha1_bytes::put_word(&mut d, 4, h.e);
    d
}

// The digest of what the stream has taken in.
pub fn finish(s: Stream) -> [u8; 20]
    ensures { (m : List ℕ) → Holds s m → result ≡ sha1_of m }
{
    let len = s.len;
    let n = (len % 64) as usize;
    let zeros = (119 - n) % 64;
    let mut pad = [0u8; 64];
    pad[0] = 0x80;
    let t = absorb(s, &pad[..zeros + 1]);
    let bits = sha1_bytes::be64(len % COUNTS * 8);
    let u = absorb(t, &bits);
    digest_bytes(u.h)
}

// The digest of a message.
pub fn sha1(m: &[u8]) -> [u8; 20]
    ensures { result ≡ sha1_of m.now }
{
    finish(absorb(start(), m))
}
