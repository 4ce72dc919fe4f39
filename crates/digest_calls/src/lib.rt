// SHA-1 into a lent buffer.
#![tactic(auto)]

ghost use Rattle.std.specs.Prelude.{◌≡◌};
ghost use Rattle.digest_calls.specs.Digest.{digest_number, digest_buffer};

// Writes the SHA-1 of s to the first 20 bytes of out and returns 0, or returns 2 where out is shorter.
pub fn sha1(s: &[u8], out: &mut [u8]) -> u32
    ensures number { result ≡ digest_number out.old }
    ensures buffer { out.new ≡ digest_buffer s.now out.old }
{
    if out.len() < 20 {
        return 2;
    }
    let digest = sha1_digest::sha1(s);
    buffer::copy_at(out, 0, &digest);
    0
}
