// Laws of a copy beside requests: to the second log's ledger it is a list of writes, and one that stopped is resumed. Nothing here runs.
#![tactic(auto)]
