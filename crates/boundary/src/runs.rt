// Trees: the run of a file's bytes at an offset, a buffer filled with a file's bytes, and the walk from a root. Each is of a log and of the
// sectors that wait behind its used part.
ghost use Rattle.std.specs.Prelude.{◌≡◌};
ghost use Rattle.file.specs.File.{located};
ghost use Rattle.fill.specs.Fill.{fill_of};
ghost use Rattle.walk.specs.Walk.{walk_of};
ghost use Rattle.tree_calls.specs.Tree;
ghost use Rattle.walk_calls.specs.Walked.{walk_result};

// Where the bytes of a file at an offset lie, packed into one number: above the number of the refusal, which takes 8 bits, 2 bits for the
// slice, 0 for the log, 1 for the waiting part and 2 for the page, then the run's length in 16 bits, then the byte of the slice where it
// starts, or for 12 the first doubtful sector.
#[unsafe(no_mangle)]
pub extern "C" fn skywimple_locate<'a>(
    log: &'a [u8],
    waiting: &'a [u8],
    page: &[u8],
    entry: &[u8],
    offset: u64,
) -> u64
    ensures { result ≡ Tree.packed (located log.now waiting.now page.now entry.now offset) }
{
    tree_calls::locate(log, waiting, page, entry, offset)
}

// Fills the buffer with the bytes of a file from an offset on. The result is the number of the refusal, 0 for none, and 256 times the
// count of the bytes written to the buffer's front. The number that is lent is set to the first doubtful sector for 12, else to 0.
#[unsafe(no_mangle)]
pub extern "C" fn skywimple_fill<'a>(
    log: &'a [u8],
    waiting: &'a [u8],
    entry: &[u8],
    offset: u64,
    buffer: &mut [u8],
    told: &mut u64,
) -> u64
    ensures { Tree.filled_up result buffer.new told.new ≡ Tree.fill_result (fill_of log.now waiting.now entry.now offset buffer.old) }
{
    tree_calls::fill(log, waiting, entry, offset, buffer, told)
}

// Walks from a root score. The result is the number of the refusal, 0 for none, then the visits in 20 bits, then the first doubtful
// sector for 12.
#[unsafe(no_mangle)]
pub extern "C" fn skywimple_walk<'a>(
    log: &'a [u8],
    waiting: &'a [u8],
    score: &[u8; 20],
    allowance: u64,
) -> u64
    ensures { result ≡ walk_result (walk_of log.now waiting.now score.now allowance) }
{
    walk_calls::walk(log, waiting, score, allowance)
}
