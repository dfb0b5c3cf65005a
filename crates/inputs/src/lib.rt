// What `relay` is started with, and what it reads: arguments, files and the numbers in them.
#![tactic(auto)]

pub mod arguments; // arguments.rt: the words that the program is started with
pub mod errors; // errors.rt: why a track isn't gone through to its end
pub mod files; // files.rt: a track's files
pub mod numbers; // numbers.rt: words and numbers that stand in text
pub mod usage; // usage.rt: what the program can be started with, in words
