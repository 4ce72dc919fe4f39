// A copy of all that a root reaches into another log, as a definition, and what it promises. Nothing here runs.
#![tactic(auto)]
