// The demands with an index of any bytes lent to each request. Nothing runs here.
#![tactic(auto)]
