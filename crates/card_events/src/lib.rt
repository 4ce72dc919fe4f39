// What the card search answers of a damaged or missing card, whatever happened to the log; nothing runs here.
#![tactic(auto)]
