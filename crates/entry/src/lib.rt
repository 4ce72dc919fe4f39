// Entries of directories, and roots.
#![tactic(auto)]

ghost use Rattle.std.specs.Prelude.{◌≡◌, ◌+◌, ◌*◌, ◌^◌, ◌≤◌, ◌<◌, leb, length, take, drop};
ghost use Rattle.entry.specs.Entry.{entry_length, field, pad_of, entry_of, well_formed};
ghost use Rattle.buffer.specs.Bytes.{zeros};
ghost use Rattle.entry.specs.Root.{root_well_formed};

use kind::LONGEST;

// The length of an entry.
pub const ENTRY: usize = 40;

// What is added to a length so that, divided by an entry's, it is rounded up.
pub const ROUND_UP: usize = ENTRY - 1;

// Where the score of an entry begins: it ends with the entry.
pub const SCORE: usize = 20;

// Where the score of a root's directory block begins and ends.
pub const ROOT_SCORE: usize = 258;

pub const ROOT_SCORE_END: usize = 278;

// An entry without its score, which stays where it is.
#[derive(Clone, Copy)]
pub struct Entry {
    pub active: bool,
    pub directory: bool,
    pub depth: usize,
    // None of the flags that must be clear is set.
    pub plain: bool,
    // The pad is all zeros.
    pub clean: bool,
    pub psize: usize,
    pub dsize: usize,
    pub size: u64,
}

// The number of `width` bytes at an offset.
fn number_at(s: &[u8], at: usize, width: usize) -> u64
    requires { (at + width ≤ length s.now) × (width ≤ 8) }
    ensures { result ≡ field at width s.now }
{
    let end = at + width;
    digits::be_number(&s[at..end])
}

// Whether the pad of the entry at an offset is all zeros.
fn is_clean(s: &[u8], at: usize) -> bool
    requires { at + entry_length ≤ length s.now }
    ensures { result ≡ zeros (pad_of (take entry_length (drop at s.now))) }
{
    let from = at + 9;
    let end = from + 5;
    buffer::is_zero(&s[from..end])
}

// The entry of the 40 bytes at an offset.
pub fn entry_at(s: &[u8], at: usize) -> Entry
    requires { at + entry_length ≤ length s.now }
    ensures { result ≡ entry_of (take entry_length (drop at s.now)) }
{
    let flags = number_at(s, at + 8, 1);
    let psize = number_at(s, at + 4, 2);
    let dsize = number_at(s, at + 6, 2);
    let size = number_at(s, at + 14, 6);
    let clean = is_clean(s, at);
    Entry {
        active: flags % 2 == 1,
        directory: flags / 2 % 2 == 1,
        depth: (flags / 4 % 8) as usize,
        plain: flags / 32 % 8 == 0,
        clean: clean,
        psize: psize as usize,
        dsize: dsize as usize,
        size: size,
    }
}

// Whether size is at most dsize times p to the power depth. The product is kept at most size, so that it can't wrap.
fn holds(size: u64, dsize: u64, p: u64, depth: usize) -> bool
    requires { 0 < p }
    ensures { result ≡ leb size (dsize * p ^ depth) }
{
    let limit = size / p;
    let mut product = dsize;
    for _level in 0..depth {
        if product <= limit {
            product *= p;
        } else {
            return true;
        }
    }
    size <= product
}

// Whether an active entry is well-formed.
pub fn is_well_formed(e: Entry) -> bool
    ensures { result ≡ well_formed e }
{
    if e.psize < 40 {
        return false;
    }
    if LONGEST < e.psize {
        return false;
    }
    if e.dsize < 1 {
        return false;
    }
    if LONGEST < e.dsize {
        return false;
    }
    if e.directory {
        if e.dsize % ENTRY != 0 {
            return false;
        }
    }
    if !e.plain {
        return false;
    }
    if !e.clean {
        return false;
    }
    holds(e.size, e.dsize as u64, (e.psize / 20) as u64, e.depth)
}

// Whether bytes are a well-formed root.
pub fn is_root(b: &[u8]) -> bool
    ensures { result ≡ root_well_formed b.now }
{
    if b.len() != 300 {
        return false;
    }
    number_at(b, 0, 2) == 2
}
