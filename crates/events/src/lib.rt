// What the theorem over all events says in plain terms, at each moment. Nothing here runs.
#![tactic(auto)]
