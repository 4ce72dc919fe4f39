// The replies of a request: refusals, acknowledgements, a request in a fresh session, what a read and a write say.
#![tactic(auto)]

ghost use Rattle.std.specs.Prelude.{◌≡◌, [], ◌≤◌, length};
ghost use Rattle.buffer.specs.Bytes.{Bytes};
ghost use Rattle.kind.specs.Kind.{longest};
ghost use Rattle.sector_log.specs.Parts.{beside};
ghost use Rattle.block.specs.Block.{Inside};
ghost use Rattle.block.specs.Log.{bytes_of};
ghost use Rattle.message.specs.Message.{head_length, tag_of, request_of};
ghost use Rattle.message.specs.Reply.{read_reply};
ghost use Rattle.message.specs.Reply.{reply as replyOf};
ghost use Rattle.message.specs.declared.Request.TheVariants.{Hello, Read, Write};
ghost use Rattle.request.specs.declared.Session.TheVariants.{Greeted, Closed as Shut};
ghost use Rattle.request.specs.Step.{reply_room, outcome_of, silent, refused, granted, written, fresh};
ghost use Rattle.two_runs.specs.Runs.{read_as_one, sectors_of_both, EndsWithin};

use block::Block;
use message::Request;
use refusal::Refusal;
use request::{Answer, Session};
use sector_log::Receipt;
use sector_number::SectorNumber;
use two_runs::Runs;

// The least length of a reply buffer.
pub const REPLY_ROOM: usize = 57348;

// A refusal without a reply.
pub fn refuse_silently(why: Refusal, session: Session) -> Answer
    ensures { (log waiting buffer : Bytes) → outcome_of result log waiting buffer ≡ silent why session (beside log waiting) buffer }
{
    Answer {
        number: refusal::number(why),
        session,
    }
}

// A refusal with its error reply.
pub fn refuse(why: Refusal, tag: u8, session: Session, reply: &mut [u8]) -> Answer
    requires { reply_room ≤ length reply.old }
    ensures { (log waiting : Bytes) → outcome_of result log waiting reply.new ≡ refused why tag session (beside log waiting) reply.old }
{
    reply::write_error(reply, tag, why);
    Answer {
        number: refusal::number(why),
        session,
    }
}

// A reply that has no body, in a greeted session.
pub fn acknowledge(kind: u8, tag: u8, reply: &mut [u8]) -> Answer
    requires { reply_room ≤ length reply.old }
    ensures { (log waiting : Bytes) → outcome_of result log waiting reply.new ≡ granted (replyOf kind tag []) Greeted (beside log waiting) reply.old }
{
    reply::write_head(reply, kind, tag, 0);
    Answer {
        number: 0,
        session: Session::Greeted,
    }
}

// A goodbye: no reply, and the session is closed.
pub fn close() -> Answer
    ensures { (log waiting buffer : Bytes) → outcome_of result log waiting buffer ≡ record { number = 0; session = Shut; lent = beside log waiting; reply = buffer } }
{
    Answer {
        number: 0,
        session: Session::Closed,
    }
}

// A hello in a fresh session.
fn greet(message: &[u8], reply: &mut [u8]) -> Answer
    requires { (head_length ≤ length message.now) × (reply_room ≤ length reply.old) }
    ensures { (log waiting : Bytes) → outcome_of result log waiting reply.new
        ≡ fresh Hello (tag_of message.now) message.now (beside log waiting) reply.old }
{
    let tag = message::tag_of(message);
    if !message::is_version(message) {
        return refuse(Refusal::Hello, tag, Session::Fresh, reply);
    }
    reply::write_hello(reply, tag);
    Answer {
        number: 0,
        session: Session::Greeted,
    }
}

// A request in a fresh session.
pub fn serve_fresh(message: &[u8], reply: &mut [u8]) -> Answer
    requires { (head_length ≤ length message.now) × (reply_room ≤ length reply.old) }
    ensures { (log waiting : Bytes) → outcome_of result log waiting reply.new
        ≡ fresh (request_of message.now) (tag_of message.now) message.now (beside log waiting) reply.old }
{
    let tag = message::tag_of(message);
    let request = message::parse(message);
    match request {
        Request::Unknown => refuse(Refusal::MessageType, tag, Session::Fresh, reply),
        Request::Ill => refuse(Refusal::Body, tag, Session::Fresh, reply),
        Request::Goodbye => close(),
        Request::Hello => greet(message, reply),
        Request::Ping => refuse(Refusal::NoHello, tag, Session::Fresh, reply),
        Request::Sync => refuse(Refusal::NoHello, tag, Session::Fresh, reply),
        Request::Read { kind: _, count: _ } => refuse(Refusal::NoHello, tag, Session::Fresh, reply),
        Request::Write { kind: _ } => refuse(Refusal::NoHello, tag, Session::Fresh, reply),
    }
}

// The reply to a read of the block at a place.
pub fn answer_read<'a>(runs: Runs<'a>, b: Block, tag: u8, reply: &mut [u8]) -> Answer
    requires { EndsWithin runs × Inside (sectors_of_both runs) b × (b.size ≤ longest) × (reply_room ≤ length reply.old) }
    ensures { outcome_of result runs.entry.log.now runs.entry.waiting.now reply.new
        ≡ granted (read_reply tag (bytes_of (read_as_one runs.entry) b)) Greeted (beside runs.entry.log.now runs.entry.waiting.now) reply.old }
{
    reply::write_head(reply, message::READ_REPLY, tag, b.size);
    reader::copy_out(runs, b, &mut reply[message::HEAD..]);
    Answer {
        number: 0,
        session: Session::Greeted,
    }
}

// The reply to a write, by what the store did.
pub fn answer_store(receipt: Receipt, tag: u8, reply: &mut [u8]) -> Answer
    requires { reply_room ≤ length reply.old }
    ensures { (log waiting : Bytes) → outcome_of result log waiting reply.new ≡ written receipt.stored tag receipt.score (beside log waiting) reply.old }
{
    let score = receipt.score;
    if let Err(why) = receipt.stored {
        return refuse(why, tag, Session::Greeted, reply);
    }
    reply::write_reply(reply, message::WRITE_REPLY, tag, &score);
    Answer {
        number: 0,
        session: Session::Greeted,
    }
}
