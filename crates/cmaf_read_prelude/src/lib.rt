// The boxes before the `moof` as they are read.
#![tactic(auto)]

pub mod styp; // styp.rt: brands
pub mod prft; // prft.rt: a producer reference time
pub mod emsg; // emsg.rt: events
