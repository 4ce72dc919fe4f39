// A date: eight decimal digits.
#![tactic(auto)]

ghost use Rattle.std.specs.Prelude.{◌≡◌};
ghost use Rattle.date.specs.Date.{is_date};

// Whether bytes are a date: eight decimal digits.
pub fn is_date(d: &[u8]) -> bool
    ensures { result ≡ is_date d.now }
{
    d.len() == 8 && d.iter().all(|b| b.is_ascii_digit())
}
