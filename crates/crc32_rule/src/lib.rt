// The rule of CRC-32 and the burst theorem. Nothing here runs: specs/ has the definitions, proofs/ the theorem.
#![tactic(auto)]
