// The chunk accepted: 5, 6, 8 and 7, each over the whole chunk, and what it says.
#![tactic(auto)]

pub mod maxima; // maxima.rt: 8
pub mod read; // read.rt: a chunk, every rule in the order of the numbers
