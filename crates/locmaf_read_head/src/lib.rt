// What stands before the property block of an object, and which ids may stand in it.
#![tactic(auto)]

pub mod head; // head.rt: header id and block length
pub mod ids; // ids.rt: which ids may stand, and the number of a block
