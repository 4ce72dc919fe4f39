// Writing calls among the events of a history: to the ledger a call is the list of its writes. Nothing here runs.
#![tactic(auto)]
