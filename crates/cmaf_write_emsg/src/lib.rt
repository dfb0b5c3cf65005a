// The events of a chunk as boxes, written.
#![tactic(auto)]

pub mod emsg; // emsg.rt: a box for each event
