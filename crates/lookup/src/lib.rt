// Look-up of a score and type by scan, in a log and the sectors that wait behind its used part, read as one log.
#![tactic(auto)]

ghost use Rattle.std.specs.Prelude.{◌≡◌, ◌≤◌, length};
ghost use Rattle.block.specs.Log.{sectors, Alike, joined};
ghost use Rattle.sector_log.specs.Parts.{tape};
ghost use Rattle.sector_log.specs.LookUp.{look_up, counted, look_number, look_up_asked};
ghost use Rattle.two_runs.specs.Runs.{read_as_one, EndsWithin};

use block::Block;
pub use doubt::why_absent;
pub use log_length::{are_allowed, is_allowed};
use refusal::Refusal;
pub use score_scan::find_held;
use sector::SECTOR;
use sector_number::SectorNumber;
use two_runs::Runs;

// The number of a look-up: 0 for a block that is found.
pub fn number(look: Result<Block, Refusal>) -> u8
    ensures { result ≡ look_number look }
{
    match look {
        Ok(_) => 0,
        Err(why) => refusal::number(why),
    }
}

// Where the waiting sectors are read on from: the end of the used part. Where nothing waits the end of the log does as well, and nobody
// needs to look for the end of the used part.
pub fn border(log: &[u8], waiting: &[u8]) -> SectorNumber
    ensures within { result.0 ≤ sectors (length log.now) }
    ensures alike { Alike (joined result.0 log.now waiting.now) (tape log.now waiting.now) }
{
    let waits = reader::used_part(waiting);
    if 0 < waits.0 {
        return reader::used_part(log);
    }
    SectorNumber(log.len() / SECTOR)
}

// Look-up of a score and type. The empty block is found at sector 0 with size 0.
pub fn look_up<'a>(runs: Runs<'a>, kind: u8, score: &[u8]) -> Result<Block, Refusal>
    requires { EndsWithin runs × (length score.now ≡ 20) }
    ensures { result ≡ look_up (read_as_one runs.entry) kind score.now }
{
    let Some(b) = find_held(runs, kind, score) else {
        return Err(why_absent(runs));
    };
    Ok(b)
}

// Look-up of a block that must not be longer than count. The refusal of a missing one is handed on.
pub fn fetch<'a>(runs: Runs<'a>, kind: u8, score: &[u8], count: usize) -> Result<Block, Refusal>
    requires { EndsWithin runs × (length score.now ≡ 20) }
    ensures { result ≡ counted count (look_up (read_as_one runs.entry) kind score.now) }
{
    let b = look_up(runs, kind, score)?;
    if count < b.size {
        return Err(Refusal::OverCount);
    }
    Ok(b)
}

// The public look-up: any log, waiting part, type and score.
pub fn ask<'a>(
    log: &'a [u8],
    waiting: &'a [u8],
    kind: u8,
    score: &[u8; 20],
) -> Result<Block, Refusal>
    ensures { result ≡ look_up_asked log.now waiting.now kind score.now }
{
    if !are_allowed(log.len(), waiting.len()) {
        return Err(Refusal::LogLength);
    }
    if !kind::is_lawful(kind) {
        return Err(Refusal::BlockType);
    }
    let end = border(log, waiting);
    look_up(Runs { log, end, waiting }, kind, score)
}
