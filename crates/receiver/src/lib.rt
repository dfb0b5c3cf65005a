// The receiver: a LOCMAF object into the front of a CMAF chunk, with the payload as the part of the object that it is.
#![tactic(auto)]

pub mod judge; // judge.rt: what an object is refused for, and what its chunk is made of
pub mod receive; // receive.rt: the call
