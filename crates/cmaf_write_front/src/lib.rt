// The chunk written: all of it up to and with the `mdat` header.
#![tactic(auto)]

pub mod front; // front.rt: all boxes
