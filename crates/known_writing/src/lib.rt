// A write and a sync, by what is known.
#![tactic(auto)]

ghost use Rattle.std.specs.Prelude.{◌≡◌, true, ◌≤◌, length};
ghost use Rattle.buffer.specs.Bytes.{Bytes};
ghost use Rattle.kind.specs.Kind.{longest};
ghost use Rattle.known.specs.Known.{belongs, store_known};
ghost use Rattle.message.specs.Message.{tag_of, data_of, request_of};
ghost use Rattle.message.specs.declared.Request.TheVariants.{Write};
ghost use Rattle.request.specs.Step.{reply_room};
ghost use Rattle.known_request.specs.Quick.{quick_of, stored_known, write_known, sync_known};

use kind::LONGEST;
use known::Known;
use known_request::Served;
use refusal::Refusal;
use request::Session;
use sector::{FRONT, LABEL};

// Stores a block by what is known, enters it into the index, and answers; with what is known then.
fn store_block(
    known: Known,
    date: &[u8],
    log: &[u8],
    waiting: &mut [u8],
    index: &mut [u8],
    reply: &mut [u8],
    kind: u8,
    tag: u8,
    data: &[u8],
) -> Served
    requires { (belongs known (length log.now) (length waiting.old) ≡ true) × (length «data».now ≤ longest) × (length date.now ≡ 8) × (reply_room ≤ length reply.old) }
    ensures { quick_of result log.now waiting.new reply.new index.new
        ≡ stored_known known date.now kind tag «data».now index.old
        (store_known known log.now waiting.old index.old date.now kind «data».now)
        reply.old }
{
    let receipt = known_store::store_known(log, waiting, index, known, date, kind, data);
    index_stored::enter_stored(index, receipt.stored, &receipt.score, kind);
    let count = block::parts_of(FRONT + LABEL, data.len());
    let after = known_store::known_after(index, receipt.stored, &receipt.score, kind, count, known);
    let answer = answer::answer_store(receipt, tag, reply);
    Served {
        answer,
        known: after,
    }
}

// A write: tests 9 and 10, then the store by what is known.
pub fn serve_write(
    known: Known,
    message: &[u8],
    date: &[u8],
    log: &[u8],
    waiting: &mut [u8],
    index: &mut [u8],
    reply: &mut [u8],
    kind: u8,
) -> Served
    requires { (belongs known (length log.now) (length waiting.old) ≡ true) × (request_of message.now ≡ Write kind) × (length date.now ≡ 8) × (reply_room ≤ length reply.old) }
    ensures { quick_of result log.now waiting.new reply.new index.new
        ≡ write_known known date.now kind (tag_of message.now) (data_of message.now) index.old log.now
        waiting.old reply.old }
{
    let tag = message::tag_of(message);
    if !kind::is_lawful(kind) {
        let answer = answer::refuse(Refusal::BlockType, tag, Session::Greeted, reply);
        return Served { answer, known };
    }
    let data = message::data_of(message);
    if LONGEST < data.len() {
        let answer = answer::refuse(Refusal::DataLength, tag, Session::Greeted, reply);
        return Served { answer, known };
    }
    store_block(known, date, log, waiting, index, reply, kind, tag, data)
}

// A sync: what waits is moved to the end that is known, or nothing is moved and it is 14.
pub fn serve_sync(
    known: Known,
    log: &mut [u8],
    waiting: &mut [u8],
    tag: u8,
    reply: &mut [u8],
) -> Served
    requires { (belongs known (length log.old) (length waiting.old) ≡ true) × (reply_room ≤ length reply.old) }
    ensures { (index : Bytes) → quick_of result log.new waiting.new reply.new index
        ≡ sync_known known tag index log.old waiting.old reply.old }
{
    if !known_store::settle_known(log, waiting, known) {
        let answer = answer::refuse(Refusal::NoRoom, tag, Session::Greeted, reply);
        return Served { answer, known };
    }
    let answer = answer::acknowledge(message::SYNC_REPLY, tag, reply);
    let settled = known_store::after_sync(known);
    Served {
        answer,
        known: settled,
    }
}
