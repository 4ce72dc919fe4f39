// The card search: a query asked of the card that an entry leads to.
#![tactic(auto)]

ghost use Rattle.std.specs.Prelude.{◌≡◌, true, ◌≤◌, length};
ghost use Rattle.sector_log.specs.LookUp.{lent_allowed};
ghost use Rattle.entry.specs.Entry.{entry_of};
ghost use Rattle.file.specs.File.{entry_readable};
ghost use Rattle.card_answer.specs.CardAnswer.{once_read};
ghost use Rattle.search.specs.Search.{card_of, search_of};

pub use card_answer::number;
use kleene::Value;
use refusal::Refusal;

// Reads a file of `size` bytes into d, which has room for it, and judges it once it is read whole. A file of no bytes isn't read.
fn read_and_judge<'a>(
    log: &'a [u8],
    waiting: &'a [u8],
    entry: &[u8],
    size: u64,
    query: &[u8],
    d: &mut [u8],
) -> Result<Value, Refusal>
    requires { (lent_allowed (length log.now) (length waiting.now) ≡ true) × (entry_readable entry.now ≡ true) × (size ≡ (entry_of entry.now).size) × (size ≤ length d.old) }
    ensures { result
        ≡ once_read (card_of log.now waiting.now entry.now).stop (card_of log.now waiting.now entry.now).bytes query.now }
{
    if size == 0 {
        return card_answer::judge(&d[..0], query);
    }
    let filled = fill_file::fill(log, waiting, entry, 0, d);
    let count = filled.count;
    let stop = filled.stop;
    card_answer::once_read(stop, &d[..count], query)
}

// Asks a query of the card that an entry leads to: any log, waiting part, page, entry and query.
pub fn search<'a>(
    log: &'a [u8],
    waiting: &'a [u8],
    page: &[u8],
    entry: &[u8],
    query: &[u8],
) -> Result<Value, Refusal>
    ensures { result ≡ search_of log.now waiting.now page.now entry.now query.now }
{
    if !lookup::are_allowed(log.len(), waiting.len()) {
        return Err(Refusal::LogLength);
    }
    if !file::is_page(page) {
        return Err(Refusal::Page);
    }
    if !file::is_readable(entry) {
        return Err(Refusal::Entry);
    }
    let e = entry::entry_at(entry, 0);
    if 4096 < e.size {
        return Err(Refusal::Card);
    }
    let mut card = [0u8; 4096];
    read_and_judge(log, waiting, entry, e.size, query, &mut card)
}
