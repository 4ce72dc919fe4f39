// Functions that call each other, each proved at a measure of its arguments that falls with every call. Nothing here runs.
#![tactic(auto)]
