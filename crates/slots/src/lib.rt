// Eight slots in a table of words that the host lends.
#![tactic(auto)]

pub mod lawful; // lawful.rt: whether the words of a share are lawful; its parameters
pub mod calls; // calls.rt: open, close, start a group
