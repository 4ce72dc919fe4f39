// The numbers of SHA-1 as bytes: a message's length in bits, and the words of a digest.
#![tactic(auto)]

ghost use Rattle.std.specs.Prelude.{◌≡◌, ◌*◌, ◌<◌};
ghost use Rattle.std.proofs.lemmas.List.Edits.{sets};
ghost use Rattle.digits.specs.Number.{be_bytes};

// The bytes of x, the highest first.
pub fn be64(x: u64) -> [u8; 8]
    ensures { result ≡ be_bytes 8 x }
{
    x.to_be_bytes()
}

// Stores the bytes of x as word `at`.
pub fn put_word(d: &mut [u8; 20], at: usize, x: u32)
    requires { at < 5 }
    ensures { d.new ≡ sets d.old (4 * at) (be_bytes 4 x) }
{
    let i = 4 * at;
    let end = i + 4;
    d[i..end].copy_from_slice(&x.to_be_bytes());
}
