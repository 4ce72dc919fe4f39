// What the card search promises over logs, from what file reading, cards and queries promise; nothing runs here.
#![tactic(auto)]
