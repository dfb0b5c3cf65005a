// `senc`, `saiz` and `saio` as they are read: their versions, flags and lengths, and what they say. Each passes where it doesn't stand.
#![tactic(auto)]

pub mod entries; // entries.rt: senc
pub mod sizes; // sizes.rt: saiz and saio
