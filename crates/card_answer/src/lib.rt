// What a card says to a query, once it is read or could not be.
#![tactic(auto)]

ghost use Rattle.std.specs.Prelude.{◌≡◌};
ghost use Rattle.card_answer.specs.CardAnswer.{judged, once_read, answer_number};

use kleene::Value;
use refusal::Refusal;

// The number of an answer: 0 where it is a value.
pub fn number(answer: Result<Value, Refusal>) -> u8
    ensures { result ≡ answer_number answer }
{
    match answer {
        Ok(_) => 0,
        Err(why) => refusal::number(why),
    }
}

// What the bytes of a file say to a query, if they are a card.
pub fn judge(card: &[u8], query: &[u8]) -> Result<Value, Refusal>
    ensures { result ≡ judged card.now query.now }
{
    if !card::is_card(card) {
        return Err(Refusal::Card);
    }
    evaluate::evaluate(card, query)
}

// What they say once the file is read whole; where it could not be, the refusal is the answer.
pub fn once_read(stop: Result<(), Refusal>, card: &[u8], query: &[u8]) -> Result<Value, Refusal>
    ensures { result ≡ once_read stop card.now query.now }
{
    match stop {
        Ok(()) => judge(card, query),
        Err(why) => Err(why),
    }
}
