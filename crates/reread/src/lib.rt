// The encoder's object, read by the receiver. There is no code.
#![tactic(auto)]
