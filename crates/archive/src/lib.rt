// One request: a session, a message, a date, the lent log with its waiting part, an index, and the lent reply buffer. Any bytes are answered.
#![tactic(auto)]

ghost use Rattle.std.specs.Prelude.{◌≡◌};
ghost use Rattle.sector_log.specs.Parts.{beside};
ghost use Rattle.std.proofs.Math.Option.{some};
ghost use Rattle.indexed.specs.Indexed.{indexed_of, step_by};

use refusal::Refusal;
use request::{Answer, Session};

// Answers a request: tests 1 to 4, and 24, then what the session allows. The index may have any length and any bytes; an empty one is the scan.
pub fn serve(
    session: Session,
    message: &[u8],
    date: &[u8],
    log: &mut [u8],
    waiting: &mut [u8],
    index: &mut [u8],
    reply: &mut [u8],
) -> Answer
    ensures { indexed_of result log.new waiting.new reply.new index.new
        ≡ step_by session message.now (some date.now) index.old (beside log.old waiting.old) reply.old }
{
    if !message::is_framed(message) {
        return answer::refuse_silently(Refusal::Frame, session);
    }
    if reply.len() < answer::REPLY_ROOM {
        return answer::refuse_silently(Refusal::Buffer, session);
    }
    if !lookup::are_allowed(log.len(), waiting.len()) {
        return answer::refuse_silently(Refusal::LogLength, session);
    }
    match session {
        Session::Closed => answer::refuse_silently(Refusal::Closed, session),
        Session::Fresh => {
            if !sector::is_date(date) {
                return answer::refuse_silently(Refusal::Date, session);
            }
            answer::serve_fresh(message, reply)
        }
        Session::Greeted => {
            if !sector::is_date(date) {
                return answer::refuse_silently(Refusal::Date, session);
            }
            greeted::serve_greeted(message, date, log, waiting, index, reply)
        }
    }
}
