// The card search, of a log and of the sectors that wait behind its used part, and whether bytes are a card.
#![tactic(auto)]

ghost use Rattle.std.specs.Prelude.{◌≡◌};
ghost use Rattle.search.specs.Search.{search_of};
ghost use Rattle.card_calls.specs.Search.{value_number, told_number, answer_sector, search_result, is_card, card_number};

use kleene::Value;
use refusal::Refusal;

// A value as a number.
fn value_number(value: Value) -> u64
    ensures { result ≡ value_number value }
{
    match value {
        Value::Yes => 1,
        Value::No => 2,
        Value::NotKnown => 3,
    }
}

// The value that is told, 0 where it is refused.
fn told_number(answer: Result<Value, Refusal>) -> u64
    ensures { result ≡ told_number answer }
{
    match answer {
        Ok(value) => value_number(value),
        Err(_) => 0,
    }
}

// The sector that a refusal tells of, 0 where none does.
fn answer_sector(answer: Result<Value, Refusal>) -> usize
    ensures { result ≡ answer_sector answer }
{
    match answer {
        Ok(_) => 0,
        Err(why) => refusal::told_sector(why),
    }
}

// Asks a query of the card that an entry leads to. The result is the number of the refusal, 0 for none, in 8 bits; the value in 8 bits,
// 1 for yes, 2 for no, 3 for not known and 0 for none; and for 12 the first doubtful sector.
pub fn search<'a>(log: &'a [u8], waiting: &'a [u8], page: &[u8], entry: &[u8], query: &[u8]) -> u64
    ensures { result ≡ search_result (search_of log.now waiting.now page.now entry.now query.now) }
{
    let answer = search::search(log, waiting, page, entry, query);
    let number = search::number(answer);
    let told = told_number(answer);
    let sector = answer_sector(answer);
    number as u64 + 256 * (told + 256 * (sector as u64))
}

// 1 where the bytes are a card, else 0: more than 4,096 are none.
pub fn is_card(bytes: &[u8]) -> u32
    ensures { result ≡ card_number (is_card bytes.now) }
{
    if 4096 < bytes.len() {
        return 0;
    }
    if card::is_card(bytes) {
        return 1;
    }
    0
}
