// What a chunk says, by the rules of its boxes: definitions in specs/. There is no code.
#![tactic(auto)]
