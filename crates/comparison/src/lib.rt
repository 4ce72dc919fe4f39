// Two directory trees compared, as a definition. Nothing here runs.
#![tactic(auto)]

use refusal::Refusal;

// What a comparison answers: the differences counted, the units spent, and how it ended.
#[derive(Clone, Copy)]
pub struct Compared {
    pub count: usize,
    pub units: usize,
    pub end: Result<(), Refusal>,
}
