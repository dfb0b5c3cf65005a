// The index of a block by id, that everything after goes by: one pass over the block, three words for each id.
#![tactic(auto)]

pub mod places; // places.rt: the words of an id in the index
pub mod index; // index.rt: where each id's tuple stands
