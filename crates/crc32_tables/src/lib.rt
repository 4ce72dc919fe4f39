// The tables by which CRC-32 goes, each with its rule proved by one computation over all its entries. A crate above sees the
// rule alone.
#![tactic(auto)]

pub mod bytes;
pub mod digits;
