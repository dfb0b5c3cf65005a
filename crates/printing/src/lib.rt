// What the programs print, on standard output: letters, texts, numbers and bytes, each at once. A line is not collected first, since an array of text beside
// what a program works on would make the check of every function that prints longer.
#![tactic(auto)]

mod hexadecimal; // hexadecimal.rt: bytes in hexadecimal
mod letters; // letters.rt: letters, words of up to eight of them, and texts
mod values; // values.rt: numbers, alone, named and in columns

pub use hexadecimal::hex;
pub use letters::{letter, say, word};
pub use values::{column, item, line, marked, named, number, worded};
