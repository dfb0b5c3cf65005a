// What a program that runs commands on tables needs for it.
#![tactic(auto)]

pub mod checksum; // checksum.rt: a number that tells bytes from others
pub mod command; // command.rt: the command at a place of the input
pub mod poke; // poke.rt: a word of the table damaged
