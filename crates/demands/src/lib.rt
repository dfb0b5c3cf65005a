// The three demands on the codec: statements in specs/, and what is proved of them in proofs/. There is no code.
#![tactic(auto)]
