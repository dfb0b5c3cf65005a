// The timescale and the time of an event, as they stand on the wire.
#![tactic(auto)]

pub mod clock; // clock.rt: by the clock that the event is on
