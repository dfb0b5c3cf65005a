// The meaning of a chunk that no rule refuses, by what it gives. There is no code.
#![tactic(auto)]
