// The rules of a field, by its line in the table of the set; the words of a set by its fields stand in specs/.
#![tactic(auto)]

pub mod rules; // rules.rt: what an absent value counts as, which fields are IVs, how numbers are coded
pub mod vanished; // vanished.rt: which fields of a reference are deleted
pub mod carried; // carried.rt: which are carried on
