// What a chunk that no rule refuses gives: all that an object is made of. There is no code.
#![tactic(auto)]
