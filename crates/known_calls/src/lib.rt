// What is known, lent as bytes: learning it, and one request by it, as numbers.
#![tactic(auto)]

ghost use Rattle.std.specs.Prelude.{◌≡◌};
ghost use Rattle.known_calls.specs.Calls.{after_learn, learn_asked, served_known, serve_asked};

use known_bytes::KNOWN;
use request::Answer;

// Learns what is known of a log, its waiting part and an index, to the 25 bytes of `known`, and returns 0; a buffer of another length is 2.
pub fn learn<'a>(log: &'a [u8], waiting: &'a [u8], index: &[u8], known: &mut [u8]) -> u32
    ensures { after_learn result known.new ≡ learn_asked log.now waiting.now index.now known.old }
{
    if known.len() != KNOWN {
        return 2;
    }
    let learned = learn::learn(log, waiting, index);
    known_bytes::write_known(known, learned);
    0
}

// One request by the 25 bytes of `known`, which then hold what is known after it; a buffer of another length is 2. The result is as that of `serve`.
pub fn serve_known(
    session: u8,
    message: &[u8],
    date: &[u8],
    log: &mut [u8],
    waiting: &mut [u8],
    index: &mut [u8],
    reply: &mut [u8],
    known: &mut [u8],
) -> u32
    ensures { served_known result log.new waiting.new reply.new index.new known.new
        ≡ serve_asked session message.now date.now index.old log.old waiting.old reply.old known.old }
{
    let before = session_numbers::session_of(session);
    if known.len() != KNOWN {
        return session_numbers::packed(Answer {
            number: 2,
            session: before,
        });
    }
    let answer = quick_bytes::serve(before, message, date, log, waiting, index, reply, known);
    session_numbers::packed(answer)
}
