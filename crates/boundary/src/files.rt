// The writer of files.
ghost use Rattle.std.specs.Prelude.{◌≡◌};
ghost use Rattle.sector_log.specs.Parts.{beside};
ghost use Rattle.writer.specs.WriteFile.{write_file};
ghost use Rattle.writer_calls.specs.Wrote;

// Writes a slice as a file: data leaves of dsize bytes, pointer blocks of psize, into the waiting part, with a date; its entry into the 40 bytes that are
// lent for it. The lent scores have room for one of each of the most leaves, 1,146,880 bytes, and those used are zeros afterwards. The result is the number of
// the refusal, 0 for none: 2 for another length of the entry's buffer or too short scores, 3, 24, 10, 16, and 15 or 14 of a block; those before it stay.
#[unsafe(no_mangle)]
pub extern "C" fn skywimple_write_file(
    log: &[u8],
    waiting: &mut [u8],
    date: &[u8],
    slice: &[u8],
    dsize: usize,
    psize: usize,
    entry: &mut [u8],
    scores: &mut [u8],
) -> u32
    ensures { Wrote.wrote_file result (beside log.now waiting.new) entry.new scores.new
        ≡ Wrote.wrote_result (write_file log.now waiting.old date.now slice.now dsize psize entry.old scores.old) }
{
    writer_calls::write_file(log, waiting, date, slice, dsize, psize, entry, scores)
}
