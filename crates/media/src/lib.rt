// What a sample's flags and its times are, each a value of its own kind.
#![tactic(auto)]

pub mod flags; // flags.rt: sample flags, built one field after another
pub mod clocks; // clocks.rt: the three clocks, kept apart
