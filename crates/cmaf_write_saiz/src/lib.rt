// The sizes and the place of the entries of protected samples.
#![tactic(auto)]

pub mod saiz; // saiz.rt: saiz and saio
