// The value of a query for a card, computed while the query is read.
#![tactic(auto)]

ghost use Rattle.std.specs.Prelude.{◌≡◌};
ghost use Rattle.kleene.specs.Kleene.{and_of, or_of};
ghost use Rattle.query.specs.Place.{words_from, next_is};
ghost use Rattle.evaluate.specs.Read.{joined_by, negated_of, closed_of, OfList, OfChoice, OfTerm, OfName};
ghost use Rattle.evaluate.specs.Evaluate.{evaluate_of};

use kleene::Value;
use refusal::Refusal;

// What stands at a place of the text: its value and where the next word starts.
#[derive(Clone, Copy)]
pub struct Read {
    value: Value,
    next: usize,
}

// Whether a word starts at a place, and is a given one.
fn next_is(text: &[u8], at: usize, word: &[u8]) -> bool
    ensures { result ≡ next_is word.now (words_from text.now at) }
{
    if text.len() < at {
        return false;
    }
    let end = card::byte_from(text, at, b' ');
    buffer::equal(&text[at..end], word)
}

// A value, "or" what was read behind it.
fn either(value: Value, rest: Option<Read>) -> Option<Read>
    ensures { result ≡ joined_by or_of value rest }
{
    let rest = rest?;
    Some(Read {
        value: kleene::or(value, rest.value),
        next: rest.next,
    })
}

// A value, "and" what was read behind it.
fn both(value: Value, rest: Option<Read>) -> Option<Read>
    ensures { result ≡ joined_by and_of value rest }
{
    let rest = rest?;
    Some(Read {
        value: kleene::and(value, rest.value),
        next: rest.next,
    })
}

// "not" of what was read behind it.
fn negated(term: Option<Read>) -> Option<Read>
    ensures { result ≡ negated_of term }
{
    let term = term?;
    Some(Read {
        value: kleene::not(term.value),
        next: term.next,
    })
}

// A list that was read behind a bracket: the other bracket has to follow.
fn closed(text: &[u8], list: Option<Read>) -> Option<Read>
    ensures { result ≡ closed_of text.now list }
{
    let list = list?;
    if !next_is(text, list.next, b")") {
        return None;
    }
    Some(Read {
        value: list.value,
        next: list.next + 2,
    })
}

// A name: what the card says of it.
fn read_name(card: &[u8], text: &[u8], at: usize) -> Option<Read>
    ensures { OfName card.now text.now at result }
{
    if text.len() < at {
        return None;
    }
    let end = card::byte_from(text, at, b' ');
    if !antigen::is_name(&text[at..end]) {
        return None;
    }
    Some(Read {
        value: card::value_in(card, &text[at..end]),
        next: end + 1,
    })
}

// A list: a choice, and behind "or" a list.
#[cycle(read_choice_read_list_read_term)]
fn read_list(card: &[u8], text: &[u8], at: usize, room: usize) -> Option<Read>
    ensures { OfList card.now text.now at room result }
{
    let choice = read_choice(card, text, at, room)?;
    if !next_is(text, choice.next, b"or") {
        return Some(choice);
    }
    either(choice.value, read_list(card, text, choice.next + 3, room))
}

// A choice: a term, and behind "and" a choice.
#[cycle(read_choice_read_list_read_term)]
fn read_choice(card: &[u8], text: &[u8], at: usize, room: usize) -> Option<Read>
    ensures { OfChoice card.now text.now at room result }
{
    let term = read_term(card, text, at, room)?;
    if !next_is(text, term.next, b"and") {
        return Some(term);
    }
    both(term.value, read_choice(card, text, term.next + 4, room))
}

// A term: "not" and a term, a list in brackets where one may still be opened, or a name.
#[cycle(read_choice_read_list_read_term)]
fn read_term(card: &[u8], text: &[u8], at: usize, room: usize) -> Option<Read>
    ensures { OfTerm card.now text.now at room result }
{
    if next_is(text, at, b"not") {
        return negated(read_term(card, text, at + 4, room));
    }
    if next_is(text, at, b"(") {
        if room == 0 {
            return None;
        }
        return closed(text, read_list(card, text, at + 2, room - 1));
    }
    read_name(card, text, at)
}

// The value of a query for a card: any bytes. More than 256 bytes are no query, nor is a list with words behind it.
pub fn evaluate(card: &[u8], text: &[u8]) -> Result<Value, Refusal>
    ensures { result ≡ evaluate_of card.now text.now }
{
    if 256 < text.len() {
        return Err(Refusal::Query);
    }
    let Some(list) = read_list(card, text, 0, 16) else {
        return Err(Refusal::Query);
    };
    if list.next <= text.len() {
        return Err(Refusal::Query);
    }
    Ok(list.value)
}
