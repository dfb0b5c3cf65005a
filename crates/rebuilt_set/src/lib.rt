// The chunk that the receiver writes says what it was written from. There is no code.
#![tactic(auto)]
