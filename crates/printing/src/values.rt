// Numbers in decimal: alone, behind a letter, a word or a text, and in columns.
// Letters: `rt` what prints, `v` a number, `w` a word.
use crate::letters::{letter, say, word};
use std::io;

pub fn number<R: Print>(rt: &R, v: u64) -> io::Result<()> {
    rt.print(v)
}

// A number that is all of its line.
pub fn line<R: Print>(rt: &R, v: u64) -> io::Result<()> {
    number(rt, v)?;
    letter(rt, b'\n')
}

// A number that more comes after.
pub fn item<R: Print>(rt: &R, v: u64) -> io::Result<()> {
    number(rt, v)?;
    letter(rt, b' ')
}

pub fn marked<R: Print>(rt: &R, mark: u8, v: u64) -> io::Result<()> {
    letter(rt, mark)?;
    number(rt, v)
}

pub fn worded<R: Print>(rt: &R, w: u64, v: u64) -> io::Result<()> {
    word(rt, w)?;
    number(rt, v)
}

pub fn named<R: Print>(rt: &R, name: &[u8], v: u64) -> io::Result<()> {
    say(rt, name)?;
    number(rt, v)
}

// Blanks from one place to another.
fn blanks<R: Print>(rt: &R, from: usize, to: usize) -> io::Result<()> {
    for i in from..to {
        letter(rt, b' ')?;
    }
    Ok(())
}

// How many digits a number has.
fn digits(v: u64) -> usize {
    match v.checked_ilog10() {
        Some(most) => most as usize + 1,
        None => 1,
    }
}

// A number at the right of a column.
pub fn column<R: Print>(rt: &R, v: u64, width: usize) -> io::Result<()> {
    blanks(rt, digits(v), width)?;
    number(rt, v)
}
