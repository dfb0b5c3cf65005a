// The events that an object gives.
#![tactic(auto)]

pub mod events; // events.rt: their values, on their own clocks
