// One field of the set that an object gives: sent, deleted, or carried on from the reference.
#![tactic(auto)]

pub mod cells; // cells.rt: one field
