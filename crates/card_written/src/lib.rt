// What the card search answers of a card that the writer of files wrote, from what both promise; nothing runs here.
#![tactic(auto)]
