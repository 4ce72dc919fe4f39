// Cards: lines that say of antigens whether they are present or absent.
#![tactic(auto)]

ghost use Rattle.std.specs.Prelude.{◌≡◌, ◌+◌, ◌≤◌, length, drop};
ghost use Rattle.card.specs.Card.{up_to, begins, line_of, told, well_formed, value_in};
ghost use Rattle.card.specs.Scan.{place_of};

use kleene::Value;

// A line by its places: where its name ends, where the line ends, and whether it says present.
#[derive(Clone, Copy)]
pub struct Line {
    equals: usize,
    end: usize,
    present: bool,
}

// Where the first byte of a value from a place on stands, or the end of the bytes.
pub fn byte_from(s: &[u8], at: usize, byte: u8) -> usize
    requires { at ≤ length s.now }
    ensures { (result ≡ at + length (up_to byte (drop at s.now))) × (result ≤ length s.now) }
{
    for i in at..s.len() {
        if s[i] == byte {
            return i;
        }
    }
    s.len()
}

// Whether p stands at a place of s.
fn begins_at(s: &[u8], at: usize, p: &[u8]) -> bool
    requires { at ≤ length s.now }
    ensures { result ≡ begins (drop at s.now) p.now }
{
    if s.len() - at < p.len() {
        return false;
    }
    let end = at + p.len();
    let part = &s[at..end];
    for i in 0..p.len() {
        if part[i] != p[i] {
            return false;
        }
    }
    true
}

// The line that starts at a place, if one does.
fn line_at(s: &[u8], at: usize) -> Option<Line>
    requires { at ≤ length s.now }
    ensures { result ≡ place_of at (line_of (drop at s.now)) }
{
    let equals = byte_from(s, at, b'=');
    if begins_at(s, equals, b"=present\n") {
        return Some(Line {
            equals,
            end: equals + 9,
            present: true,
        });
    }
    if begins_at(s, equals, b"=absent\n") {
        return Some(Line {
            equals,
            end: equals + 8,
            present: false,
        });
    }
    None
}

// Yes for present, no for absent.
fn told(present: bool) -> Value
    ensures { result ≡ told present }
{
    if present { Value::Yes } else { Value::No }
}

// What a card says of a name: any bytes and any name.
pub fn value_in(card: &[u8], name: &[u8]) -> Value
    ensures { result ≡ value_in card.now name.now }
{
    let mut at: usize = 0;
    while at < card.len() {
        let Some(line) = line_at(card, at) else {
            return Value::NotKnown;
        };
        if buffer::equal(&card[at..line.equals], name) {
            return told(line.present);
        }
        at = line.end;
    }
    Value::NotKnown
}

// Whether bytes are a card: lines one after another to the last byte, their names rising.
pub fn is_card(s: &[u8]) -> bool
    ensures { result ≡ well_formed s.now }
{
    let mut from: usize = 0;
    let mut to: usize = 0;
    let mut at: usize = 0;
    while at < s.len() {
        let Some(line) = line_at(s, at) else {
            return false;
        };
        if !antigen::is_name(&s[at..line.equals]) {
            return false;
        }
        if !antigen::is_before(&s[from..to], &s[at..line.equals]) {
            return false;
        }
        from = at;
        to = line.equals;
        at = line.end;
    }
    true
}
