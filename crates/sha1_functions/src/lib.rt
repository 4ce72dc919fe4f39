// The functions and the constants of the rounds of SHA-1 (FIPS 180-4).
#![tactic(auto)]

ghost use Rattle.std.specs.Prelude.{◌≡◌};
ghost use Rattle.sha1_functions.specs.Functions.{ch_of, parity_of, maj_of, f_of, k_of};

// Ch, section 4.1.1, without the complement: with it the rounds are a fifth slower.
fn ch(x: u32, y: u32, z: u32) -> u32
    ensures { result ≡ ch_of x y z }
{
    ((y ^ z) & x) ^ z
}

// Parity, section 4.1.1.
fn parity(x: u32, y: u32, z: u32) -> u32
    ensures { result ≡ parity_of x y z }
{
    x ^ y ^ z
}

// Maj, section 4.1.1.
fn maj(x: u32, y: u32, z: u32) -> u32
    ensures { result ≡ maj_of x y z }
{
    (x & y) ^ (x & z) ^ (y & z)
}

// The function of the rounds of the quarter q, section 4.1.1.
pub fn mixed(q: usize, x: u32, y: u32, z: u32) -> u32
    ensures { result ≡ f_of q x y z }
{
    match q {
        0 => ch(x, y, z),
        1 => parity(x, y, z),
        2 => maj(x, y, z),
        _ => parity(x, y, z),
    }
}

// The constant of the rounds of the quarter q, section 4.2.1.
pub fn constant(q: usize) -> u32
    ensures { result ≡ k_of q }
{
    match q {
        0 => 0x5a827999,
        1 => 0x6ed9eba1,
        2 => 0x8f1bbcdc,
        _ => 0xca62c1d6,
    }
}
