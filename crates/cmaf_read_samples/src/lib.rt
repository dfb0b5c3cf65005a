// The fields that the samples of a chunk have: one value for all of them, a value for each, and their sizes, as words of the set.
#![tactic(auto)]

pub mod cells; // cells.rt: one field, of one value or a value for each sample
pub mod sizes; // sizes.rt: the sizes of the samples, as a list or as one value
