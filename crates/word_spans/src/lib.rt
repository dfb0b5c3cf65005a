// Spans of words, whatever they mean.
#![tactic(auto)]

pub mod scan; // scan.rt: many words looked at as one, and added up
pub mod words; // words.rt: words moved from one run to another
