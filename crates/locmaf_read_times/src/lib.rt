// The times that an object gives.
#![tactic(auto)]

pub mod bmdt; // bmdt.rt: the base media decode time, sent or derived
pub mod prft; // prft.rt: the producer reference time
