// The set of moof fields of a chunk that keeps every rule, as words.
#![tactic(auto)]

pub mod entries; // entries.rt: what the senc says
pub mod set; // set.rt: all fields
