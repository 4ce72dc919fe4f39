// The first difference of two directory blocks: the entry, where it lies in the first or in the second.
#![tactic(auto)]

ghost use Rattle.std.specs.Prelude.{◌≡◌, ◌%◌, ◌^◌, ◌<◌, length};
ghost use Rattle.difference.specs.Difference.{entry_at, active, side_of, block_allowed, difference_of, answer_of};
ghost use Rattle.difference.specs.Handed.{part_of};

use kind::LONGEST;
use refusal::Refusal;

// Which of the two entries at a position is handed back: neither where there is no difference.
#[derive(Clone, Copy)]
pub enum Side {
    First,
    Second,
    Neither,
}

// Where two blocks first differ: at a byte of the first or of the second, or nowhere.
#[derive(Clone, Copy)]
pub enum Difference {
    First { at: usize },
    Second { at: usize },
    Nowhere,
}

// Whether a block is whole entries, and not too long.
fn is_block(b: &[u8]) -> bool
    ensures { result ≡ block_allowed b.now }
{
    if b.len() % 40 != 0 {
        return false;
    }
    b.len() <= LONGEST
}

// Whether the entry at a position is active; past the end it isn't.
fn is_active(b: &[u8], i: usize) -> bool
    requires { (length b.now % 40 ≡ 0) × (i < 2 ^ 32) }
    ensures { result ≡ active (entry_at b.now i) }
{
    let at = 40 * i;
    if b.len() <= at {
        return false;
    }
    let e = entry::entry_at(b, at);
    e.active
}

// Which entry at a position is handed back. The first unless only the second is active there.
fn side_at(a: &[u8], b: &[u8], i: usize) -> Side
    requires { (length a.now % 40 ≡ 0) × (length b.now % 40 ≡ 0) × (i < 2 ^ 32) }
    ensures { result ≡ side_of (entry_at a.now i) (entry_at b.now i) }
{
    let second = is_active(b, i);
    if !is_active(a, i) {
        if second {
            return Side::Second;
        }
        return Side::Neither;
    }
    if !second {
        return Side::First;
    }
    let at = 40 * i;
    let end = at + 40;
    if buffer::equal(&a[at..end], &b[at..end]) {
        return Side::Neither;
    }
    Side::First
}

// Where two blocks first differ, for any two lent parts.
pub fn locate(a: &[u8], b: &[u8]) -> Result<Difference, Refusal>
    ensures { result ≡ difference_of a.now b.now }
{
    if !is_block(a) {
        return Err(Refusal::Entry);
    }
    if !is_block(b) {
        return Err(Refusal::Entry);
    }
    let count = a.len().max(b.len()) / 40;
    for i in 0..count {
        let side = side_at(a, b, i);
        match side {
            Side::First => return Ok(Difference::First { at: 40 * i }),
            Side::Second => return Ok(Difference::Second { at: 40 * i }),
            Side::Neither => {}
        }
    }
    Ok(Difference::Nowhere)
}

// The entry itself: a part of the first or of the second block; an empty part of the first where there is no difference, or on a refusal.
pub fn read<'a>(a: &'a [u8], b: &'a [u8]) -> &'a [u8]
    ensures { part_of (difference_of a.now b.now) a.entry b.entry result }
{
    let Ok(found) = locate(a, b) else {
        return &a[..0];
    };
    match found {
        Difference::First { at } => {
            let end = at + 40;
            &a[at..end]
        }
        Difference::Second { at } => {
            let end = at + 40;
            &b[at..end]
        }
        Difference::Nowhere => &a[..0],
    }
}

// The number that goes with it: 0 for none.
pub fn number(found: Result<Difference, Refusal>) -> u8
    ensures { result ≡ answer_of found }
{
    match found {
        Ok(_) => 0,
        Err(why) => refusal::number(why),
    }
}
