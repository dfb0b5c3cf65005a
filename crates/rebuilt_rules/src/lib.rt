// No rule refuses the chunk that the receiver writes. There is no code.
#![tactic(auto)]
