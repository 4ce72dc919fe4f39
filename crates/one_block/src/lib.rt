// One block of a log, found without the rest of it. Nothing runs here.
#![tactic(auto)]
