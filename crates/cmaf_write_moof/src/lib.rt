// The `moof`, written.
#![tactic(auto)]

pub mod protection; // protection.rt: senc, saiz and saio
pub mod moof; // moof.rt: mfhd, and a traf with its boxes
