// The laws of a comparison that no contract needs. Nothing runs here.
#![tactic(auto)]
