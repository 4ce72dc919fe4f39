// One sector of the log: where its parts stand, and whether it begins with the line of a date.
#![tactic(auto)]

ghost use Rattle.std.specs.Prelude.{◌≡◌, ◌≤◌, length};
ghost use Rattle.sector.specs.Sector.{front_of, date_field, front_length};

pub use date::is_date;
use sector_number::SectorNumber;

// What the label of a sector says beside the score: the sector where the block starts, which part this is and of how many,
// the block's type, and the bytes in the block.
#[derive(Clone, Copy)]
pub struct Label {
    pub first: SectorNumber,
    pub part: usize,
    pub of: usize,
    pub kind: u8,
    pub size: usize,
}

pub const SECTOR: usize = 512;

// The six lines of a label.
pub const LABEL: usize = 96;

// Where each but the first of them begins.
pub const PART_LINE: usize = 13;

pub const OF_LINE: usize = 23;

pub const KIND_LINE: usize = 31;

pub const SIZE_LINE: usize = 39;

pub const SCORE_LINE: usize = 49;

// Where the digits of the type stand among the six lines.
pub const KIND: usize = 36;

// Where those of the size stand.
pub const SIZE: usize = 44;

// Where those of the score stand.
pub const SCORE: usize = 55;

// How many digits each line has; that of the parts has as many as that of a part.
pub const REC_WIDTH: usize = 8;

pub const PART_WIDTH: usize = 4;

pub const KIND_WIDTH: usize = 2;

pub const SIZE_WIDTH: usize = 4;

pub const SCORE_WIDTH: usize = 40;

// The line of a date, before them.
pub const FRONT: usize = 14;

// Where its digits stand, and where they end: there is its line feed.
pub const DATE: usize = 5;

pub const DATE_END: usize = 13;

// Label and payload.
pub const BODY: usize = 499;

// How long the line of a date is with which a sector begins, 0 where it begins with none.
pub fn front_length(s: &[u8]) -> usize
    requires { front_length ≤ length s.now }
    ensures { result ≡ length (front_of (date_field s.now)) }
{
    if s[DATE_END] != 10 {
        return 0;
    }
    if !buffer::equal(&s[..DATE], b"date=") {
        return 0;
    }
    if !is_date(&s[DATE..DATE_END]) {
        return 0;
    }
    FRONT
}
