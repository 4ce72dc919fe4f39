// The laws of walking: specs/ has the claims and proofs/ the proofs; nothing here runs.
#![tactic(auto)]
