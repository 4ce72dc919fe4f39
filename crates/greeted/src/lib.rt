// A request in a greeted session, by what its message asks.
#![tactic(auto)]

ghost use Rattle.std.specs.Prelude.{◌≡◌, ◌≤◌, length};
ghost use Rattle.sector_log.specs.Parts.{beside};
ghost use Rattle.message.specs.Message.{head_length, tag_of, request_of};
ghost use Rattle.request.specs.Step.{reply_room};
ghost use Rattle.indexed.specs.Indexed.{indexed_of, greeted_by};

use message::Request;
use refusal::Refusal;
use request::{Answer, Session};

// A request in a greeted session.
pub fn serve_greeted(
    message: &[u8],
    date: &[u8],
    log: &mut [u8],
    waiting: &mut [u8],
    index: &mut [u8],
    reply: &mut [u8],
) -> Answer
    requires { (head_length ≤ length message.now) × (reply_room ≤ length reply.old) × (length date.now ≡ 8) }
    ensures { indexed_of result log.new waiting.new reply.new index.new
        ≡ greeted_by date.now (request_of message.now) (tag_of message.now) message.now index.old
        (beside log.old waiting.old) reply.old }
{
    let tag = message::tag_of(message);
    let request = message::parse(message);
    match request {
        Request::Unknown => answer::refuse(Refusal::MessageType, tag, Session::Greeted, reply),
        Request::Ill => answer::refuse(Refusal::Body, tag, Session::Greeted, reply),
        Request::Goodbye => answer::close(),
        Request::Hello => answer::refuse(Refusal::Hello, tag, Session::Greeted, reply),
        Request::Ping => answer::acknowledge(message::PING_REPLY, tag, reply),
        Request::Sync => syncing::serve_sync(log, waiting, tag, reply),
        Request::Read { kind, count } => {
            reading::serve_read(message, log, waiting, index, reply, kind, count)
        }
        Request::Write { kind } => {
            writing::serve_write(message, date, log, waiting, index, reply, kind)
        }
    }
}
