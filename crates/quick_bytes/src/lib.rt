// One request by what is known, lent as bytes.
#![tactic(auto)]

ghost use Rattle.std.specs.Prelude.{◌≡◌, length};
ghost use Rattle.indexed.specs.Indexed.{indexed_of};
ghost use Rattle.known_request.specs.Quick.{step_known};
ghost use Rattle.known_bytes.specs.KnownBytes.{known_bytes, known_of};

use request::{Answer, Session};

// Answers a request by the 25 bytes of `known`, which then hold what is known after it.
pub fn serve(
    session: Session,
    message: &[u8],
    date: &[u8],
    log: &mut [u8],
    waiting: &mut [u8],
    index: &mut [u8],
    reply: &mut [u8],
    known: &mut [u8],
) -> Answer
    requires { length known.old ≡ 25 }
    ensures answered { indexed_of result log.new waiting.new reply.new index.new
        ≡ (step_known (known_of known.old) session message.now date.now index.old log.old waiting.old reply.old).indexed }
    ensures told { known.new
        ≡ known_bytes
        (step_known (known_of known.old) session message.now date.now index.old log.old waiting.old reply.old).known }
{
    let now = known_bytes::read_known(known);
    let served = quick::serve(now, session, message, date, log, waiting, index, reply);
    known_bytes::write_served(known, served)
}
