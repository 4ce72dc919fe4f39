// What requests leave of the files in a log. Nothing here runs: proofs/ has the theorems.
#![tactic(auto)]
