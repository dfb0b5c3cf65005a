// The table of the moof fields: where each stands in the words of a set, how many values it has, and how large they may be.
#![tactic(auto)]

pub mod lines; // lines.rt: a line for each id
pub mod order; // order.rt: the number of each line
pub mod marks; // marks.rt: the marks of the fields, in that order
