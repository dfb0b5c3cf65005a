// How lines begin, and what stands in them.
// Letters: `v` a number.
use slots::lawful::Side;
use std::io;

// A number behind a space and a letter.
pub fn item<R: Print>(rt: &R, mark: char, v: u64) -> io::Result<()> {
    print!(rt; " {mark}{v}")
}

// An answer or a word behind what it belongs to.
pub fn pair<R: Print>(rt: &R, of: u64, v: u64) -> io::Result<()> {
    print!(rt; " {of}={v}")
}

// A new line begins with whose table it is, and the slot.
pub fn start<R: Print>(rt: &R, side: Side, slot: u64) -> io::Result<()> {
    match side {
        Side::Encoder => print!(rt; "\ne{slot}"),
        Side::Receiver => print!(rt; "\nr{slot}"),
    }
}
