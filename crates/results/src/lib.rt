// What the numbers that the calls of the boundary answer with have in common: their parts and bounds. Each call's own answer stands in the crate of its subject. Nothing runs here.
#![tactic(auto)]
