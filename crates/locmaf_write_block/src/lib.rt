// The set of moof fields of a chunk in an object: which stand in it, weighed first and then written, ascending by id.
#![tactic(auto)]

pub mod cells; // cells.rt: one field of the set: omitted, deleted or sent
pub mod set; // set.rt: all fields of the set, BMDT and the sample count
pub mod deletions; // deletions.rt: the ids that are deleted
