// Boxes of ISO BMFF: fields of 16, 32 and 64 bits, and box heads.
#![tactic(auto)]

pub mod put; // put.rt: writing fields and bytes
pub mod kinds; // kinds.rt: the types of the boxes
