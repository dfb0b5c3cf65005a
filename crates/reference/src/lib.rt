// What the calls of both sides do alike: the reference that is kept of an accepted object.
#![tactic(auto)]

pub mod keep; // keep.rt: the reference into the share
