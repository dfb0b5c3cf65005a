// A property block as the receiver reads it: its tuples, the numbers of its lists, and the records of its events.
#![tactic(auto)]

pub mod tuples; // tuples.rt: one tuple off the front
pub mod numbers; // numbers.rt: how many varints fill a part
mod walk; // walk.rt: the records of a list without a call for a record
pub mod records; // records.rt: the records of the emsg list
