// Whether the boxes of a chunk are right, number 6: their order, versions, flags and lengths.
#![tactic(auto)]

pub mod right; // right.rt: all boxes
