// The reasons for which a call is refused, and the number of each.
#![tactic(auto)]

ghost use Rattle.std.specs.Prelude.{◌≡◌};
ghost use Rattle.refusal.specs.Number.{number_of, doubt_of, told_sector};

use sector_number::SectorNumber;

#[derive(Clone, Copy)]
pub enum Refusal {
    // Fewer than 4 bytes, or a size that isn't the count of bytes after it.
    Frame,
    // A reply or report buffer that is too short.
    Buffer,
    // A log that isn't whole sectors, or too long.
    LogLength,
    // The session is closed.
    Closed,
    // A message type that no request has.
    MessageType,
    // An ill-formed body.
    Body,
    // A request before a hello was accepted.
    NoHello,
    // A second hello, or another version.
    Hello,
    // A block type that isn't of the ten.
    BlockType,
    // Data over 57,344 bytes.
    DataLength,
    // The block is not held.
    NotHeld,
    // Whether the block is held is not known, with the first doubtful sector.
    NotKnown(SectorNumber),
    // The block is longer than the count.
    OverCount,
    // Too few sectors are left after the used part.
    NoRoom,
    // A block of that score and type has other bytes, or data that isn't empty has the zero score.
    Clash,
    // An ill-formed entry or root.
    Entry,
    // An offset at or past the file's size.
    Offset,
    // A pointer block whose length isn't a multiple of 20.
    Pointers,
    // A blank page that is empty or not all zeros.
    Page,
    // Directories nested too deep.
    Nest,
    // The allowance is used up.
    Spent,
    // A pad target out of range, or a pointer length that isn't a multiple of 20.
    Pad,
    // An allowance over the limit.
    Allowance,
    // A date that isn't eight decimal digits.
    Date,
    // An ill-formed card, or one over 4,096 bytes.
    Card,
    // An ill-formed query.
    Query,
}

// Where the doubt is.
pub fn doubt_of(why: Refusal) -> Option<SectorNumber>
    ensures { result ≡ doubt_of why }
{
    match why {
        Refusal::NotKnown(sector) => Some(sector),
        Refusal::Frame
        | Refusal::Buffer
        | Refusal::LogLength
        | Refusal::Closed
        | Refusal::MessageType
        | Refusal::Body
        | Refusal::NoHello
        | Refusal::Hello
        | Refusal::BlockType
        | Refusal::DataLength
        | Refusal::NotHeld
        | Refusal::OverCount
        | Refusal::NoRoom
        | Refusal::Clash
        | Refusal::Entry
        | Refusal::Offset
        | Refusal::Pointers
        | Refusal::Page
        | Refusal::Nest
        | Refusal::Spent
        | Refusal::Pad
        | Refusal::Allowance
        | Refusal::Date
        | Refusal::Card
        | Refusal::Query => None,
    }
}

// The sector that a refusal tells of, 0 where it tells of none.
pub fn told_sector(why: Refusal) -> usize
    ensures { result ≡ told_sector why }
{
    let doubt = doubt_of(why);
    match doubt {
        Some(sector) => sector.0,
        None => 0,
    }
}

// The number of a refusal.
pub fn number(why: Refusal) -> u8
    ensures { result ≡ number_of why }
{
    match why {
        Refusal::Frame => 1,
        Refusal::Buffer => 2,
        Refusal::LogLength => 3,
        Refusal::Closed => 4,
        Refusal::MessageType => 5,
        Refusal::Body => 6,
        Refusal::NoHello => 7,
        Refusal::Hello => 8,
        Refusal::BlockType => 9,
        Refusal::DataLength => 10,
        Refusal::NotHeld => 11,
        Refusal::NotKnown(_) => 12,
        Refusal::OverCount => 13,
        Refusal::NoRoom => 14,
        Refusal::Clash => 15,
        Refusal::Entry => 16,
        Refusal::Offset => 17,
        Refusal::Pointers => 18,
        Refusal::Page => 19,
        Refusal::Nest => 20,
        Refusal::Spent => 21,
        Refusal::Pad => 22,
        Refusal::Allowance => 23,
        Refusal::Date => 24,
        Refusal::Card => 25,
        Refusal::Query => 26,
    }
}
