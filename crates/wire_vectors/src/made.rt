// Runs made by hand: what no writer writes, which of two troubles comes first, and distances that lead out of range.
use crate::powers::{P31, P61, P62, TOP};
use crate::run_lines::{kind, read_back, words};
use crate::text;
use crate::text::hex;
use printing::{word, worded};
use std::io;
use wire::form::Form;
use wire::zigzag::Coding;

// n values from the place at to the place last of a run, of which the bytes up to the place shown are printed.
fn made<R: Print>(
    rt: &R,
    coding: Coding,
    s: &[u8],
    shown: usize,
    at: usize,
    last: usize,
    old: &[u64],
    base: u64,
    bound: u64,
    n: usize,
) -> io::Result<()> {
    hex(rt, text::MADE, s, 0, shown)?;
    worded(rt, text::AT_PLACE, at as u64)?;
    word(rt, text::AGAINST)?;
    words(rt, old)?;
    kind(rt, coding, base)?;
    word(rt, text::LINE)?;
    read_back(rt, coding, s, at, last, old, base, bound, n)
}

fn plain<R: Print>(
    rt: &R,
    s: &[u8],
    at: usize,
    last: usize,
    bound: u64,
    n: usize,
) -> io::Result<()> {
    made(rt, Coding::Plain, s, s.len(), at, last, &[], 0, bound, n)
}

// Padded varints, which are taken; then a value too large before a cut one and before a byte left over, and those two alone.
pub fn troubles<R: Print>(rt: &R) -> io::Result<()> {
    plain(rt, b"\x40\x25\x80\x00\x00\x3f", 0, 6, 63, 2)?;
    plain(rt, b"\x05\x40", 0, 2, 4, 2)?;
    plain(rt, b"\x03\x40", 0, 2, 4, 2)?;
    plain(rt, b"\x05\x06", 0, 2, 4, 1)?;
    plain(rt, b"\x03\x06", 0, 2, 4, 1)
}

// No bytes, an end that the bytes do not reach, and a place past the end.
pub fn empty<R: Print>(rt: &R) -> io::Result<()> {
    let s: &[u8] = b"\x01";
    plain(rt, s, 0, 0, 4, 0)?;
    plain(rt, s, 0, 0, 4, 1)?;
    plain(rt, s, 0, 2, 4, 0)?;
    plain(rt, s, 0, 2, 4, 1)?;
    plain(rt, s, 5, 1, 4, 0)?;
    plain(rt, s, 5, 1, 4, 1)
}

// The zigzag z of one distance: from the old value, or from the base where there is none.
fn distance<R: Print>(rt: &R, z: u64, old: &[u64], base: u64, bound: u64) -> io::Result<()> {
    let mut s = [0u8; 8];
    let last = wire::varint::put(Form::Rfc9000, &mut s, 0, z);
    made(rt, Coding::Delta, &s, last, 0, last, old, base, bound, 1)
}

// Distances of one, and of none, that end at 0 or at the bound, and past each; then the widest, down and up.
pub fn distances<R: Print>(rt: &R) -> io::Result<()> {
    distance(rt, 1, &[], 0, 9)?;
    distance(rt, 1, &[], P31, 0xffff_ffff)?;
    distance(rt, 1, &[1], 0, 9)?;
    distance(rt, 2, &[8], 0, 9)?;
    distance(rt, 2, &[9], 0, 9)?;
    distance(rt, 0, &[10], 0, 9)?;
    distance(rt, 1, &[11], 0, 9)?;
    distance(rt, 2, &[TOP], 0, TOP)?;
    distance(rt, P62 - 1, &[P61], 0, 9)?;
    distance(rt, P62 - 1, &[P61 - 1], 0, 9)?;
    distance(rt, P62 - 2, &[1], 0, P61)?;
    distance(rt, P62 - 2, &[1], 0, P61 - 1)
}
