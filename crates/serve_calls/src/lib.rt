// One request, its session and its outcome as numbers.
#![tactic(auto)]

ghost use Rattle.std.specs.Prelude.{◌≡◌};
ghost use Rattle.std.proofs.Math.Option.{some};
ghost use Rattle.sector_log.specs.Parts.{beside};
ghost use Rattle.indexed.specs.Indexed.{step_by};
ghost use Rattle.session_numbers.specs.Serve.{session_of, served, served_of};

// One request, with a date, the log and its waiting part, and an index of any length; an empty one is the scan.
// The result is the number of the refusal, 0 for none, and 256 times the session afterwards.
pub fn serve(
    session: u8,
    message: &[u8],
    date: &[u8],
    log: &mut [u8],
    waiting: &mut [u8],
    index: &mut [u8],
    reply: &mut [u8],
) -> u32
    ensures { served result log.new waiting.new reply.new index.new
        ≡ served_of (step_by (session_of session) message.now (some date.now) index.old (beside log.old waiting.old) reply.old) }
{
    let answer = archive::serve(
        session_numbers::session_of(session),
        message,
        date,
        log,
        waiting,
        index,
        reply,
    );
    session_numbers::packed(answer)
}
