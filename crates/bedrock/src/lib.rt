// What any crate may stand on, with nothing of the archive in it: a choice by what may be there, numbers in a range, what is found
// at the places of a range; proofs/ has their laws. Nothing runs here.
#![tactic(auto)]
