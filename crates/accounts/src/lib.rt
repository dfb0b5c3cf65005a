// What `relay` counts, and the lines that it prints of it.
#![tactic(auto)]

pub mod joins; // joins.rt: what is counted of a second receiver
pub mod report; // report.rt: the lines that people read
pub mod saved; // saved.rt: what is saved, in percent
pub mod tally; // tally.rt: what is counted of a chunk, of a track and of all of them
pub mod words; // words.rt: the words of each number
