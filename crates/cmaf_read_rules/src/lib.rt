// The rules on fields, counts and parameters of a chunk whose boxes are right: number 7 where one is broken.
#![tactic(auto)]

pub mod samples; // samples.rt: data offset, sample flags, composition offsets, sizes
pub mod protection; // protection.rt: senc, saiz and saio against the samples
pub mod all; // all.rt: every rule
