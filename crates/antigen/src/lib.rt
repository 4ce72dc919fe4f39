// The names of antigens, in cards and in queries, and their order.
#![tactic(auto)]

ghost use Rattle.std.specs.Prelude.{◌≡◌};
ghost use Rattle.antigen.specs.Name.{letter_or_digit, letters_and_digits, reserved, is_name, before};

// Whether a byte is 0 to 9, A to Z or a to z.
fn is_letter_or_digit(b: u8) -> bool
    ensures { result ≡ letter_or_digit b }
{
    b.is_ascii_alphanumeric()
}

// Whether all bytes are letters or digits.
fn are_letters_and_digits(s: &[u8]) -> bool
    ensures { result ≡ letters_and_digits s.now }
{
    s.iter().all(|b| is_letter_or_digit(*b))
}

// Whether bytes are one of the words that queries have: and, or, not.
fn is_reserved(s: &[u8]) -> bool
    ensures { result ≡ reserved s.now }
{
    buffer::equal(s, b"and") || buffer::equal(s, b"or") || buffer::equal(s, b"not")
}

// Whether bytes are the name of an antigen.
pub fn is_name(s: &[u8]) -> bool
    ensures { result ≡ is_name s.now }
{
    match s.len() {
        1..=8 => !is_reserved(s) && are_letters_and_digits(s),
        _ => false,
    }
}

// Whether a is before b, byte by byte; a beginning is before its continuation.
pub fn is_before(a: &[u8], b: &[u8]) -> bool
    ensures { result ≡ before a.now b.now }
{
    a < b
}
