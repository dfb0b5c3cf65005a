// The encoder: a CMAF chunk into the front of a LOCMAF object, with the payload as the part of the chunk that it is.
#![tactic(auto)]

pub mod properties; // properties.rt: all tuples of an object
pub mod front; // front.rt: full or delta, or why neither; and all of the object before the payload
pub mod encode; // encode.rt: the call
