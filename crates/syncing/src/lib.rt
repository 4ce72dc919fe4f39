// A sync message.
#![tactic(auto)]

ghost use Rattle.std.specs.Prelude.{◌≡◌, ◌≤◌, length};
ghost use Rattle.sector_log.specs.Parts.{beside};
ghost use Rattle.request.specs.Step.{reply_room, outcome_of, sync};

use refusal::Refusal;
use request::{Answer, Session};

// A sync: what waits is moved into the log before the reply, or nothing is and the refusal is 14.
pub fn serve_sync(log: &mut [u8], waiting: &mut [u8], tag: u8, reply: &mut [u8]) -> Answer
    requires { reply_room ≤ length reply.old }
    ensures { outcome_of result log.new waiting.new reply.new ≡ sync tag (beside log.old waiting.old) reply.old }
{
    if !settle::settle(log, waiting) {
        return answer::refuse(Refusal::NoRoom, tag, Session::Greeted, reply);
    }
    answer::acknowledge(message::SYNC_REPLY, tag, reply)
}
