// The events of a chunk as the records of id 25, which is whole in a delta too: their bytes counted, and written.
#![tactic(auto)]

pub mod records; // records.rt: the records
