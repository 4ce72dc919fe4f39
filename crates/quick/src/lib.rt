// One request by what is known of the log, its waiting part and its index. Any bytes are answered, and anything may be said to be known.
#![tactic(auto)]

ghost use Rattle.std.specs.Prelude.{◌≡◌, true, length};
ghost use Rattle.std.proofs.Math.Option.{some};
ghost use Rattle.sector_log.specs.Parts.{beside};
ghost use Rattle.indexed.specs.Indexed.{step_by};
ghost use Rattle.known_request.specs.Quick.{quick_of, knowing, step_known};
ghost use Rattle.quick.specs.Admitted.{is_greeted, admitted};

use answer::REPLY_ROOM;
use known::Known;
use known_request::Served;
use message::Request;
use request::Session;

// A request that is answered as without what is known, which stays.
fn hand_on(
    known: Known,
    session: Session,
    message: &[u8],
    date: &[u8],
    log: &mut [u8],
    waiting: &mut [u8],
    index: &mut [u8],
    reply: &mut [u8],
) -> Served
    ensures { quick_of result log.new waiting.new reply.new index.new
        ≡ knowing known (step_by session message.now (some date.now) index.old (beside log.old waiting.old) reply.old) }
{
    let answer = archive::serve(session, message, date, log, waiting, index, reply);
    Served { answer, known }
}

fn is_greeted(session: Session) -> bool
    ensures { result ≡ is_greeted session }
{
    match session {
        Session::Fresh => false,
        Session::Greeted => true,
        Session::Closed => false,
    }
}

// Whether a request goes by what is known: a greeted session, and tests 1, 2, 3 and 24 pass, with these lengths of the log, its waiting part and the reply buffer.
fn is_admitted(
    session: Session,
    message: &[u8],
    date: &[u8],
    log: usize,
    waiting: usize,
    room: usize,
) -> bool
    ensures { result ≡ admitted session message.now date.now log waiting room }
{
    if !message::is_framed(message) {
        return false;
    }
    if room < REPLY_ROOM {
        return false;
    }
    if !lookup::are_allowed(log, waiting) {
        return false;
    }
    if !is_greeted(session) {
        return false;
    }
    sector::is_date(date)
}

// A request that passed the tests: a read, a write and a sync go by what is known, learned anew where it cannot belong.
fn serve_admitted(
    known: Known,
    session: Session,
    message: &[u8],
    date: &[u8],
    log: &mut [u8],
    waiting: &mut [u8],
    index: &mut [u8],
    reply: &mut [u8],
) -> Served
    requires { admitted session message.now date.now (length log.old) (length waiting.old) (length reply.old) ≡ true }
    ensures { quick_of result log.new waiting.new reply.new index.new
        ≡ step_known known session message.now date.now index.old log.old waiting.old reply.old }
{
    let tag = message::tag_of(message);
    let request = message::parse(message);
    match request {
        Request::Read { kind, count } => {
            let current = renewal::renew(known, log, waiting, index);
            let answer = known_reading::serve_read(
                current, message, log, waiting, index, reply, kind, count,
            );
            Served {
                answer,
                known: current,
            }
        }
        Request::Write { kind } => {
            let current = renewal::renew(known, log, waiting, index);
            known_writing::serve_write(current, message, date, log, waiting, index, reply, kind)
        }
        Request::Sync => {
            let current = renewal::renew(known, log, waiting, index);
            known_writing::serve_sync(current, log, waiting, tag, reply)
        }
        _ => hand_on(known, session, message, date, log, waiting, index, reply),
    }
}

// Answers a request by what is known, with what is known then: if it is what `learn` would say, the answer is that of `archive::serve`, and it is so again.
pub fn serve(
    known: Known,
    session: Session,
    message: &[u8],
    date: &[u8],
    log: &mut [u8],
    waiting: &mut [u8],
    index: &mut [u8],
    reply: &mut [u8],
) -> Served
    ensures { quick_of result log.new waiting.new reply.new index.new
        ≡ step_known known session message.now date.now index.old log.old waiting.old reply.old }
{
    if !is_admitted(
        session,
        message,
        date,
        log.len(),
        waiting.len(),
        reply.len(),
    ) {
        return hand_on(known, session, message, date, log, waiting, index, reply);
    }
    serve_admitted(known, session, message, date, log, waiting, index, reply)
}
