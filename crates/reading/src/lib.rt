// A read message, by index.
#![tactic(auto)]

ghost use Rattle.std.specs.Prelude.{◌≡◌, ◌≤◌, length};
ghost use Rattle.buffer.specs.Bytes.{Bytes};
ghost use Rattle.kind.specs.Kind.{longest};
ghost use Rattle.sector_log.specs.Parts.{beside};
ghost use Rattle.block.specs.Block.{Inside};
ghost use Rattle.block.specs.Log.{sectors};
ghost use Rattle.message.specs.Message.{tag_of, score_of, request_of};
ghost use Rattle.message.specs.declared.Request.TheVariants.{Read};
ghost use Rattle.request.specs.declared.Session.TheVariants.{Greeted};
ghost use Rattle.request.specs.Step.{reply_room, outcome_of};
ghost use Rattle.reading.specs.Settled.{settled_read};
ghost use Rattle.indexed.specs.Indexed.{indexed_of, read_by};

use block::Block;
use refusal::Refusal;
use request::{Answer, Session};
use sector::SECTOR;
use sector_number::SectorNumber;
use two_runs::Runs;

// A read: test 9, the look-up by index among the log's sectors and those that wait, test 13.
fn read_anywhere<'a>(
    message: &[u8],
    log: &'a [u8],
    waiting: &'a [u8],
    index: &[u8],
    reply: &mut [u8],
    kind: u8,
    count: usize,
) -> Answer
    requires { (request_of message.now ≡ Read kind count) × (reply_room ≤ length reply.old) }
    ensures { indexed_of result log.now waiting.now reply.new index.now
        ≡ read_by kind count (tag_of message.now) (score_of message.now) index.now (beside log.now waiting.now) reply.old }
{
    let tag = message::tag_of(message);
    if !kind::is_lawful(kind) {
        return answer::refuse(Refusal::BlockType, tag, Session::Greeted, reply);
    }
    let end = lookup::border(log, waiting);
    let score = message::score_of(message);
    let look = index_lookup::fetch_by(Runs { log, end, waiting }, index, kind, score, count);
    match look {
        Ok(b) => answer::answer_read(Runs { log, end, waiting }, b, tag, reply),
        Err(why) => answer::refuse(why, tag, Session::Greeted, reply),
    }
}

// The answer to a read of a block that stands among the log's own sectors: test 13.
fn answer_settled(log: &[u8], b: Block, count: usize, tag: u8, reply: &mut [u8]) -> Answer
    requires { Inside (sectors (length log.now)) b × (b.size ≤ longest) × (reply_room ≤ length reply.old) }
    ensures { (waiting : Bytes) → outcome_of result log.now waiting reply.new
        ≡ settled_read log.now b count tag (beside log.now waiting) reply.old }
{
    if count < b.size {
        return answer::refuse(Refusal::OverCount, tag, Session::Greeted, reply);
    }
    let end = log.len() / SECTOR;
    answer::answer_read(
        Runs {
            log,
            end: SectorNumber(end),
            waiting: &log[..0],
        },
        b,
        tag,
        reply,
    )
}

// A read. Where a block is found among the log's own sectors, by the index or without an entry by scan, those that wait are not looked at.
pub fn serve_read<'a>(
    message: &[u8],
    log: &'a [u8],
    waiting: &'a [u8],
    index: &[u8],
    reply: &mut [u8],
    kind: u8,
    count: usize,
) -> Answer
    requires { (request_of message.now ≡ Read kind count) × (reply_room ≤ length reply.old) }
    ensures { indexed_of result log.now waiting.now reply.new index.now
        ≡ read_by kind count (tag_of message.now) (score_of message.now) index.now (beside log.now waiting.now) reply.old }
{
    if kind::is_lawful(kind) {
        let score = message::score_of(message);
        if let Some(b) = settled_lookup::find_settled(log, index, kind, score) {
            return answer_settled(log, b, count, message::tag_of(message), reply);
        }
    }
    read_anywhere(message, log, waiting, index, reply, kind, count)
}
