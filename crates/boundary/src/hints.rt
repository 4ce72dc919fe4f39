// The index beside a log: look-up by it, and rebuilding.
ghost use Rattle.std.specs.Prelude.{◌≡◌};
ghost use Rattle.hint.specs.Hint.{look_up_by_asked};
ghost use Rattle.hint.specs.Rebuilt.{rebuilt_asked};
ghost use Rattle.index_calls.specs.Hints;

// Look-up by index of a score and type, in a log and what waits behind its used part. The result has the number in the lowest 8 bits, the size of the
// block in the 16 above, and its first sector above both; for 12 the first doubtful sector stands there.
#[unsafe(no_mangle)]
pub extern "C" fn skywimple_look_up_by<'a>(
    log: &'a [u8],
    waiting: &'a [u8],
    index: &[u8],
    kind: u8,
    score: &[u8; 20],
) -> u64
    ensures { result ≡ Hints.look_result (look_up_by_asked log.now waiting.now index.now kind score.now) }
{
    index_calls::look_up_by(log, waiting, index, kind, score)
}

// Rebuilds the index from the log alone: it enters every sound block, as far as its bucket has places. The result is the number.
#[unsafe(no_mangle)]
pub extern "C" fn skywimple_rebuild(log: &[u8], index: &mut [u8]) -> u32
    ensures { Hints.rebuilt_index result index.new ≡ Hints.rebuild_result (rebuilt_asked log.now index.old) }
{
    index_calls::rebuild(log, index)
}
