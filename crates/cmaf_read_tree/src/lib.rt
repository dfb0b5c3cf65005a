// Boxes as they are read: fields, heads, and whether a list of boxes is whole.
#![tactic(auto)]

pub mod numbers; // numbers.rt: numbers at a place
pub mod heads; // heads.rt: the first box of a list
mod walk; // walk.rt: the check of a list without a call for a level
pub mod whole; // whole.rt: the check of a list
