// Histories, damage and torn writes of which the promises speak can be. Nothing here runs.
#![tactic(auto)]
