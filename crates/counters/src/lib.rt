// The IVs of a cenc track as counters: which one follows from another, and by how many protected bytes.
#![tactic(auto)]

pub mod protected; // protected.rt: the protected bytes of a sample
pub mod follow; // follow.rt: whether the IVs of a chunk follow, and the ones that would
