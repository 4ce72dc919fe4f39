// The writer of files, as definitions: the blocks of a slice, the least depth, storing them one after the other, the tests and the entry; their laws. Nothing runs here.
#![tactic(auto)]
