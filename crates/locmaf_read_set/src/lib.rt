// The set of moof fields that an object gives.
#![tactic(auto)]

pub mod read; // read.rt: all of them, in the order of the rules
