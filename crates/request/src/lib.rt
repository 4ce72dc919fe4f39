// One request, as a definition: what is answered to a message, by the session and by what is lent as a log. Nothing runs here.

// A session: open with no hello yet, greeted, or closed.
#![tactic(auto)]

#[derive(Clone, Copy)]
pub enum Session {
    Fresh,
    Greeted,
    Closed,
}

// The number of the refusal, 0 for none, and the session afterwards.
#[derive(Clone, Copy)]
pub struct Answer {
    pub number: u8,
    pub session: Session,
}
