// The producer reference time of a chunk in an object.
#![tactic(auto)]

pub mod prft; // prft.rt: ids 18, 20, 22 and 24
