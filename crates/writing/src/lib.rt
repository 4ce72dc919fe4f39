// A write message: tests 9 and 10, then the store.
#![tactic(auto)]

ghost use Rattle.std.specs.Prelude.{◌≡◌, ◌≤◌, length};
ghost use Rattle.sector_log.specs.Parts.{beside};
ghost use Rattle.message.specs.Message.{tag_of, data_of, request_of};
ghost use Rattle.message.specs.declared.Request.TheVariants.{Write};
ghost use Rattle.request.specs.Step.{reply_room};
ghost use Rattle.indexed.specs.Indexed.{indexed_of, write_by};

use kind::LONGEST;
use refusal::Refusal;
use request::{Answer, Session};

// A write: tests 9 and 10, then the store, which decides by the scan; a block that it stores is entered.
pub fn serve_write(
    message: &[u8],
    date: &[u8],
    log: &[u8],
    waiting: &mut [u8],
    index: &mut [u8],
    reply: &mut [u8],
    kind: u8,
) -> Answer
    requires { (request_of message.now ≡ Write kind) × (reply_room ≤ length reply.old) × (length date.now ≡ 8) }
    ensures { indexed_of result log.now waiting.new reply.new index.new
        ≡ write_by date.now kind (tag_of message.now) (data_of message.now) index.old
        (beside log.now waiting.old) reply.old }
{
    let tag = message::tag_of(message);
    if !kind::is_lawful(kind) {
        return answer::refuse(Refusal::BlockType, tag, Session::Greeted, reply);
    }
    let data = message::data_of(message);
    if LONGEST < data.len() {
        return answer::refuse(Refusal::DataLength, tag, Session::Greeted, reply);
    }
    let receipt = store::store(log, waiting, date, kind, data);
    index_stored::enter_stored(index, receipt.stored, &receipt.score, kind);
    answer::answer_store(receipt, tag, reply)
}
