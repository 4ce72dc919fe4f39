// Three values, yes, no and not known, and the strong Kleene tables.
#![tactic(auto)]

ghost use Rattle.std.specs.Prelude.{◌≡◌};
ghost use Rattle.kleene.specs.Kleene.{not_of, and_of, or_of};

#[derive(Clone, Copy)]
pub enum Value {
    Yes,
    No,
    NotKnown,
}

// Swaps yes and no.
pub fn not(a: Value) -> Value
    ensures { result ≡ not_of a }
{
    match a {
        Value::Yes => Value::No,
        Value::No => Value::Yes,
        Value::NotKnown => Value::NotKnown,
    }
}

// No if either is no, else not known if either is.
pub fn and(a: Value, b: Value) -> Value
    ensures { result ≡ and_of a b }
{
    match (a, b) {
        (Value::No, _) | (_, Value::No) => Value::No,
        (Value::Yes, Value::Yes) => Value::Yes,
        _ => Value::NotKnown,
    }
}

// Yes if either is yes, else not known if either is.
pub fn or(a: Value, b: Value) -> Value
    ensures { result ≡ or_of a b }
{
    match (a, b) {
        (Value::Yes, _) | (_, Value::Yes) => Value::Yes,
        (Value::No, Value::No) => Value::No,
        _ => Value::NotKnown,
    }
}
