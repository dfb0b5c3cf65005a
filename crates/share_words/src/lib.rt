// The words of a slot's share, by their places.
#![tactic(auto)]

pub mod share; // share.rt: the places; words that become 0
