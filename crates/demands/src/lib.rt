// The ledger's theorem, and with it demands 2 and 3, of our archive. Nothing here runs: specs/ has the ledger and the claims, proofs/ their proofs.
#![tactic(auto)]
