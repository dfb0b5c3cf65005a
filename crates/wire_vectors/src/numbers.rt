// Single varints: written and read back, cut at each byte, read where they are longer than they need be, and read at any place.
use crate::powers::{P30, P62, TOP};
use crate::text;
use crate::text::hex;
use printing::{word, worded};
use std::io;
use wire::form::Form;

fn got<R: Print>(rt: &R, g: Option<(u64, usize)>) -> io::Result<()> {
    match g {
        Some((v, next)) => {
            worded(rt, text::READS, v)?;
            worded(rt, text::NEXT, next as u64)
        }
        None => word(rt, text::CUT),
    }
}

// What is read from the place `from` up to the last end, and up to each end before that.
fn ends<R: Print>(rt: &R, s: &[u8; 16], from: usize, last: usize) -> io::Result<()> {
    got(rt, wire::varint::read(Form::Rfc9000, s, from, last))?;
    for e in from..last {
        worded(rt, text::END, e as u64)?;
        got(rt, wire::varint::read(Form::Rfc9000, s, from, e))?;
    }
    word(rt, text::LINE)
}

// The number v written at a place, which counts up to 8, where the longest varint has room; then read back up to where its bytes end, and
// up to each end before that.
fn vector<R: Print>(rt: &R, place: usize, v: u64) -> io::Result<()> {
    let at = place % 9;
    let mut s = [0xeeu8; 16];
    let next = wire::varint::put(Form::Rfc9000, &mut s, at, v);
    worded(rt, text::VARINT, v)?;
    worded(rt, text::SIZE, wire::varint::size(Form::Rfc9000, v) as u64)?;
    hex(rt, text::BYTES, &s, at, next)?;
    ends(rt, &s, at, next)
}

// The powers of two, and the numbers beside each.
pub fn powers<R: Print>(rt: &R) -> io::Result<()> {
    for k in 0u64..64 {
        let p = 1u64 << k;
        vector(rt, 3, std::num::wrapping_sub_u64(p, 1))?;
        vector(rt, 3, p)?;
        vector(rt, 3, std::num::wrapping_add_u64(p, 1))?;
    }
    Ok(())
}

// The last number of each length and the first of the next, where the longest ends with the array.
pub fn edges<R: Print>(rt: &R) -> io::Result<()> {
    vector(rt, 8, 63)?;
    vector(rt, 8, 64)?;
    vector(rt, 8, 16383)?;
    vector(rt, 8, 16384)?;
    vector(rt, 8, P30 - 1)?;
    vector(rt, 8, P30)?;
    vector(rt, 8, P62 - 1)?;
    vector(rt, 8, P62)?;
    vector(rt, 8, TOP)
}

// One varint of some bytes, and the place after it, which is their end where it is cut.
fn one<R: Print>(rt: &R, s: &[u8], at: usize) -> io::Result<usize> {
    let g = wire::varint::read(Form::Rfc9000, s, at, s.len());
    let next = match g {
        Some((_, n)) => n,
        None => s.len(),
    };
    hex(rt, text::LONE_BYTES, s, at, next)?;
    got(rt, g)?;
    word(rt, text::LINE)?;
    Ok(next)
}

// n varints, each where the one before it ends.
fn chain<R: Print>(rt: &R, s: &[u8], n: usize) -> io::Result<()> {
    let mut at = 0;
    for _ in 0..n {
        at = one(rt, s, at)?;
    }
    Ok(())
}

// Varints one after another. First the examples of RFC 9000, A.1, of which the last is 37 in two bytes. Then, in each longer form: 0, 1, 37 and
// 63, which one byte would hold; 64, 15293 and 16383, which two would; 16384, 494878333 and 2^30 - 1, which four would.
pub fn padded<R: Print>(rt: &R) -> io::Result<()> {
    chain(
        rt,
        b"\xc2\x19\x7c\x5e\xff\x14\xe8\x8c\x9d\x7f\x3e\x7d\x7b\xbd\x25\x40\x25",
        5,
    )?;
    chain(
        rt,
        b"\x40\x00\x80\x00\x00\x00\xc0\x00\x00\x00\x00\x00\x00\x00",
        3,
    )?;
    chain(
        rt,
        b"\x40\x01\x80\x00\x00\x01\xc0\x00\x00\x00\x00\x00\x00\x01",
        3,
    )?;
    chain(
        rt,
        b"\x40\x25\x80\x00\x00\x25\xc0\x00\x00\x00\x00\x00\x00\x25",
        3,
    )?;
    chain(
        rt,
        b"\x40\x3f\x80\x00\x00\x3f\xc0\x00\x00\x00\x00\x00\x00\x3f",
        3,
    )?;
    chain(rt, b"\x80\x00\x00\x40\xc0\x00\x00\x00\x00\x00\x00\x40", 2)?;
    chain(rt, b"\x80\x00\x3b\xbd\xc0\x00\x00\x00\x00\x00\x3b\xbd", 2)?;
    chain(rt, b"\x80\x00\x3f\xff\xc0\x00\x00\x00\x00\x00\x3f\xff", 2)?;
    chain(rt, b"\xc0\x00\x00\x00\x00\x00\x40\x00", 1)?;
    chain(rt, b"\xc0\x00\x00\x00\x1d\x7f\x3e\x7d", 1)?;
    chain(rt, b"\xc0\x00\x00\x00\x3f\xff\xff\xff", 1)
}

// The last place that a number can name.
const FARTHEST: usize = 0xffff_ffff_ffff_ffff;

// A read of the bytes 40 25 3f at a place, up to an end.
fn place<R: Print>(rt: &R, at: usize, last: usize) -> io::Result<()> {
    worded(rt, text::PLACE, at as u64)?;
    worded(rt, text::END, last as u64)?;
    let g = wire::varint::read(Form::Rfc9000, b"\x40\x25\x3f", at, last);
    got(rt, g)?;
    word(rt, text::LINE)
}

// Every place up to two past the three bytes with every such end, and the farthest.
pub fn places<R: Print>(rt: &R) -> io::Result<()> {
    for k in 0..36 {
        place(rt, k / 6, k % 6)?;
    }
    place(rt, 0, FARTHEST)?;
    place(rt, FARTHEST, 3)?;
    place(rt, FARTHEST, FARTHEST)
}
