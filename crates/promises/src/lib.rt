// What demands 2 and 3 say in plain terms: of one request in any log, of whole histories, of dates. Nothing here runs.
#![tactic(auto)]
