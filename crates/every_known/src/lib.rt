// What is promised of requests by what is known, whatever happens between them. Nothing runs here.
#![tactic(auto)]
