// Look-up and store in any log.
#![tactic(auto)]

use block::Block;
use refusal::Refusal;
use sector_number::SectorNumber;

// What a store does: the block is new at its place, or there already, or refused.
#[derive(Clone, Copy)]
pub enum Stored {
    New(SectorNumber),
    Duplicate(SectorNumber),
}

// A store's answer, with the score of the data.
#[derive(Clone, Copy)]
pub struct Receipt {
    pub score: [u8; 20],
    pub stored: Result<Stored, Refusal>,
}
