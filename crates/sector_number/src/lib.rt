// The number of a sector.

// The number of a sector of the log, so that it can't be mixed with byte offsets or part numbers.
#![tactic(auto)]

#[derive(Clone, Copy)]
pub struct SectorNumber(pub usize);
