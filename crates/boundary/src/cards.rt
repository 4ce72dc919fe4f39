// The card search, of a log and of the sectors that wait behind its used part, and whether bytes are a card.
ghost use Rattle.std.specs.Prelude.{◌≡◌};
ghost use Rattle.search.specs.Search.{search_of};
ghost use Rattle.card_calls.specs.Search;

// Asks a query of the card that an entry leads to. The result is the number of the refusal, 0 for none, in 8 bits; the value in 8 bits,
// 1 for yes, 2 for no, 3 for not known and 0 for none; and for 12 the first doubtful sector.
#[unsafe(no_mangle)]
pub extern "C" fn skywimple_search<'a>(
    log: &'a [u8],
    waiting: &'a [u8],
    page: &[u8],
    entry: &[u8],
    query: &[u8],
) -> u64
    ensures { result ≡ Search.search_result (search_of log.now waiting.now page.now entry.now query.now) }
{
    card_calls::search(log, waiting, page, entry, query)
}

// 1 where the bytes are a card, else 0: more than 4,096 are none.
#[unsafe(no_mangle)]
pub extern "C" fn skywimple_is_card(bytes: &[u8]) -> u32
    ensures { result ≡ Search.card_number (Search.is_card bytes.now) }
{
    card_calls::is_card(bytes)
}
