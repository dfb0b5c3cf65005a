// The entries of protected samples.
#![tactic(auto)]

pub mod senc; // senc.rt: the box that holds their IVs and subsamples
