// A session, and a request's answer, as numbers.
#![tactic(auto)]

ghost use Rattle.std.specs.Prelude.{◌≡◌, ◌+◌, ◌*◌};
ghost use Rattle.session_numbers.specs.Serve.{session_of, session_number};

use request::{Answer, Session};

// A session as a number: 0 is fresh, 1 greeted, and anything else closed.
pub fn session_of(n: u8) -> Session
    ensures { result ≡ session_of n }
{
    if n == 0 {
        return Session::Fresh;
    }
    if n == 1 {
        return Session::Greeted;
    }
    Session::Closed
}

fn session_number(s: Session) -> u32
    ensures { result ≡ session_number s }
{
    match s {
        Session::Fresh => 0,
        Session::Greeted => 1,
        Session::Closed => 2,
    }
}

// An answer in one number: the number of the refusal, 0 for none, and 256 times the session afterwards.
pub fn packed(answer: Answer) -> u32
    ensures { result ≡ answer.number + 256 * session_number answer.session }
{
    let after = answer.session;
    (answer.number as u32) + 256 * session_number(after)
}
