// The set of moof fields of a chunk as one run of words, with the same places in a share and in a scratch array.
#![tactic(auto)]

pub mod rules; // rules.rt: which fields of a set may stand together
pub mod lawful; // lawful.rt: whether words are those of a lawful set
