// Laws of reading a file: what its runs are, laid end to end and read again. Nothing here runs.
#![tactic(auto)]
