// One tuple of an object, weighed first and then written; and what is to stand in a block.
#![tactic(auto)]

pub mod tuples; // tuples.rt: a number, a body, a list of numbers
