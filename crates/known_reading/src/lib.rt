// A read message, by what is known.
#![tactic(auto)]

ghost use Rattle.std.specs.Prelude.{◌≡◌, true, ◌≤◌, length};
ghost use Rattle.known.specs.Known.{belongs};
ghost use Rattle.message.specs.Message.{tag_of, score_of, request_of};
ghost use Rattle.message.specs.declared.Request.TheVariants.{Read};
ghost use Rattle.request.specs.Step.{reply_room};
ghost use Rattle.indexed.specs.Indexed.{indexed_of};
ghost use Rattle.known_request.specs.Quick.{knowing, read_known};

use known::Known;
use refusal::Refusal;
use request::{Answer, Session};
use two_runs::Runs;

// A read: test 9, the block that is found by what is known, test 13.
pub fn serve_read<'a>(
    known: Known,
    message: &[u8],
    log: &'a [u8],
    waiting: &'a [u8],
    index: &[u8],
    reply: &mut [u8],
    kind: u8,
    count: usize,
) -> Answer
    requires { (belongs known (length log.now) (length waiting.now) ≡ true) × (request_of message.now ≡ Read kind count) × (reply_room ≤ length reply.old) }
    ensures { knowing known (indexed_of result log.now waiting.now reply.new index.now)
        ≡ read_known known kind count (tag_of message.now) (score_of message.now) index.now log.now waiting.now reply.old }
{
    let tag = message::tag_of(message);
    if !kind::is_lawful(kind) {
        return answer::refuse(Refusal::BlockType, tag, Session::Greeted, reply);
    }
    let score = message::score_of(message);
    let Some(b) = known_store::find_known(log, waiting, index, known, kind, score) else {
        let doubt = known.doubt;
        let why = known_store::missing_by(doubt);
        return answer::refuse(why, tag, Session::Greeted, reply);
    };
    if count < b.size {
        return answer::refuse(Refusal::OverCount, tag, Session::Greeted, reply);
    }
    let end = known.used;
    answer::answer_read(Runs { log, end, waiting }, b, tag, reply)
}
