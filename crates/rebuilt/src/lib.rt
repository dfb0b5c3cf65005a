// The chunk that the receiver writes, read box by box. There is no code.
#![tactic(auto)]
