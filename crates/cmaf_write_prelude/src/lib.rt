// The first boxes of a chunk, written.
#![tactic(auto)]

pub mod outer; // outer.rt: styp and prft
