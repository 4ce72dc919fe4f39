// The checked examples that the paper marks, in one table. Nothing here runs: specs/ has the table, proofs/ its proof.
#![tactic(auto)]
