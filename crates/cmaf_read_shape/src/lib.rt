// Which boxes a chunk has, in which order, and their places; of what stands in them, only the word of version and flags.
#![tactic(auto)]

pub mod parts; // parts.rt: a box where it is looked for
pub mod words; // words.rt: version and flags as one word
pub mod top; // top.rt: the boxes at the top
pub mod inner; // inner.rt: the boxes inside the `moof`
