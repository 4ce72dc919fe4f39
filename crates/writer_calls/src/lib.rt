// A file written, its outcome as numbers and byte strings.
#![tactic(auto)]

ghost use Rattle.std.specs.Prelude.{◌≡◌};
ghost use Rattle.sector_log.specs.Parts.{beside};
ghost use Rattle.writer.specs.WriteFile.{end_number, write_file};
ghost use Rattle.writer_calls.specs.Wrote.{wrote_file, wrote_result};

use refusal::Refusal;

// The number of how writing ended: 0 where all blocks are stored.
fn end_number(end: Result<(), Refusal>) -> u32
    ensures { result ≡ end_number end }
{
    match end {
        Ok(()) => 0,
        Err(why) => refusal::number(why) as u32,
    }
}

// Writes a file and its entry. The result is the number of the refusal, 0 for none.
pub fn write_file(
    log: &[u8],
    waiting: &mut [u8],
    date: &[u8],
    slice: &[u8],
    dsize: usize,
    psize: usize,
    entry: &mut [u8],
    scores: &mut [u8],
) -> u32
    ensures { wrote_file result (beside log.now waiting.new) entry.new scores.new
        ≡ wrote_result (write_file log.now waiting.old date.now slice.now dsize psize entry.old scores.old) }
{
    let end = write::write_file(log, waiting, date, slice, dsize, psize, entry, scores);
    end_number(end)
}
