// One request that is lent an index, as a definition: what is answered, and what the index then holds. Nothing runs here.
#![tactic(auto)]
