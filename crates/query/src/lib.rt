// Queries: their readings as a type, the text of a reading, the reading of a text, and the value of a reading; proofs/ has that text and
// reading match one to one. Nothing runs here.
#![tactic(auto)]
