// What locating gives is small enough to pack: proofs/ has the bounds. Nothing runs here.
#![tactic(auto)]
