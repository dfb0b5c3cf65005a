// The numbers that the rules fix, each under one name. What a definition calls them stands in specs/.
#![tactic(auto)]

pub mod ids; // ids.rt: the ids of objects and of tuples
pub mod maxima; // maxima.rt: how much there may be of anything
