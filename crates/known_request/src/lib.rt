// One request that is handed what is known of the log, its waiting part and its index, as a definition, and what is promised of it. Nothing runs here.
#![tactic(auto)]

use known::Known;
use request::Answer;

// The answer, and what is known then.
#[derive(Clone, Copy)]
pub struct Served {
    pub answer: Answer,
    pub known: Known,
}
