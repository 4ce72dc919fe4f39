// Whether bytes are well-formed UTF-8, in one pass.
#![tactic(auto)]

ghost use Rattle.std.specs.Prelude.{◌≡◌, []};
ghost use Rattle.utf8.specs.Grammar.{well_formed_text};
ghost use Rattle.utf8.specs.Scan.{low_after, high_after, wait, due, Tells};

// What is due of a character: `left` bytes, the next one from `low` to `high`, those after it from 80 to BF.
#[derive(Clone, Copy)]
pub struct Due {
    left: u8,
    low: u8,
    high: u8,
}

// The least byte after the first byte b of a character: none has a longer form than it needs.
fn low_after(b: u8) -> u8
    ensures { result ≡ low_after b }
{
    match b {
        0xe0 => 0xa0,
        0xf0 => 0x90,
        _ => 0x80,
    }
}

// The greatest: no surrogate, and nothing past the last character.
fn high_after(b: u8) -> u8
    ensures { result ≡ high_after b }
{
    match b {
        0xed => 0x9f,
        0xf4 => 0x8f,
        _ => 0xbf,
    }
}

// Waits for `left` bytes after the first byte b.
fn wait(left: u8, b: u8) -> Option<Due>
    ensures { result ≡ wait left b }
{
    Some(Due {
        left,
        low: low_after(b),
        high: high_after(b),
    })
}

// What is due after the first byte b of a character; none where no text goes on so.
fn after_first(b: u8) -> Option<Due>
    ensures { Tells result [] b }
{
    if b == 0 {
        return None;
    }
    if b < 0x80 {
        return wait(0, b);
    }
    if b < 0xc2 {
        return None;
    }
    if b < 0xe0 {
        return wait(1, b);
    }
    if b < 0xf0 {
        return wait(2, b);
    }
    if b < 0xf5 {
        return wait(3, b);
    }
    None
}

// What is due after the byte b where d was due.
fn after_byte(d: Due, b: u8) -> Option<Due>
    ensures { Tells result (due d) b }
{
    if d.left == 0 {
        return after_first(b);
    }
    if b < d.low {
        return None;
    }
    if d.high < b {
        return None;
    }
    Some(Due {
        left: d.left - 1,
        low: 0x80,
        high: 0xbf,
    })
}

// Whether the bytes are characters, one after another, the last one whole and none of them NUL.
pub fn is_well_formed(s: &[u8]) -> bool
    ensures { result ≡ well_formed_text s.now }
{
    let mut d = Due {
        left: 0,
        low: 0x80,
        high: 0xbf,
    };
    for &b in s {
        let Some(more) = after_byte(d, b) else {
            return false;
        };
        d = more;
    }
    d.left == 0
}
