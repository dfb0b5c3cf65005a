// `mfhd`, `tfhd` and `tfdt` as they are read: their versions, flags and lengths, and what they say.
#![tactic(auto)]

pub mod headers; // headers.rt: `mfhd` and `tfdt`
pub mod defaults; // defaults.rt: `tfhd`
