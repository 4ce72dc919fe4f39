// The run of bytes of a file at an offset, as a part of the log, of the waiting part or of the lent page.
#![tactic(auto)]

ghost use Rattle.file.specs.File.{located};
ghost use Rattle.file_read.specs.Run.{run_of};

use file::Located;

// The bytes themselves: a part of the log, of the waiting part or of the page; an empty part of the page on a refusal.
pub fn read<'a>(
    log: &'a [u8],
    waiting: &'a [u8],
    page: &'a [u8],
    entry: &[u8],
    offset: u64,
) -> &'a [u8]
    ensures { run_of (located log.now waiting.now page.now entry.now offset) log.entry waiting.entry page.entry result }
{
    let Ok(run) = file::locate(log, waiting, page, entry, offset) else {
        return &page[..0];
    };
    match run {
        Located::Stored { at, length } => {
            let end = at + length;
            &log[at..end]
        }
        Located::Waiting { at, length } => {
            let end = at + length;
            &waiting[at..end]
        }
        Located::Zeros { length } => &page[..length],
    }
}
