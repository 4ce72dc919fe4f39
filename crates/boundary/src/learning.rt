// What is known of a log, its waiting part and an index: learned, and a request by it.
ghost use Rattle.std.specs.Prelude.{◌≡◌};
ghost use Rattle.known_calls.specs.Calls;

// Learns what is known of a log, its waiting part and an index, to the 25 bytes of `known`, and returns 0; a buffer of another length is 2.
#[unsafe(no_mangle)]
pub extern "C" fn skywimple_learn<'a>(
    log: &'a [u8],
    waiting: &'a [u8],
    index: &[u8],
    known: &mut [u8],
) -> u32
    ensures { Calls.after_learn result known.new ≡ Calls.learn_asked log.now waiting.now index.now known.old }
{
    known_calls::learn(log, waiting, index, known)
}

// One request by the 25 bytes of `known`, which then hold what is known after it; a buffer of another length is 2. The result is as that of `skywimple_serve`.
#[unsafe(no_mangle)]
pub extern "C" fn skywimple_serve_known(
    session: u8,
    message: &[u8],
    date: &[u8],
    log: &mut [u8],
    waiting: &mut [u8],
    index: &mut [u8],
    reply: &mut [u8],
    known: &mut [u8],
) -> u32
    ensures { Calls.served_known result log.new waiting.new reply.new index.new known.new
        ≡ Calls.serve_asked session message.now date.now index.old log.old waiting.old reply.old known.old }
{
    known_calls::serve_known(session, message, date, log, waiting, index, reply, known)
}
