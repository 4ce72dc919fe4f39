// What a server knows of a log, its waiting part and its index from the last request, as definitions, and what is promised of it; nothing runs here.
#![tactic(auto)]

use sector_number::SectorNumber;

// How many sectors of the log and of the waiting part are used, what is doubtful in both, and whether the index leads to every sound block.
#[derive(Clone, Copy)]
pub struct Known {
    pub used: SectorNumber,
    pub waits: SectorNumber,
    pub doubt: Option<SectorNumber>,
    pub exact: bool,
}
