// The sizes of samples as far as the words of a set tell them.
#![tactic(auto)]

pub mod sums; // sums.rt: words added up
pub mod told; // told.rt: whether what is told of sizes and subsamples agrees
