// Lists against old ones: their runs written and read back.
use crate::powers::{P30, P31, P61, P62, TOP};
use crate::run_lines::{run, words};
use crate::text;
use printing::word;
use std::io;
use wire::zigzag::Coding;

// The runs of a list, whose largest value is given, against an old one, where an absent old value counts as 0, and as 2^31.
fn pair<R: Print>(rt: &R, new: &[u64], old: &[u64], most: u64) -> io::Result<()> {
    word(rt, text::LIST)?;
    words(rt, new)?;
    word(rt, text::AGAINST)?;
    words(rt, old)?;
    word(rt, text::LINE)?;
    run(rt, Coding::Plain, 0, new, old, most)?;
    run(rt, Coding::Delta, 0, new, old, most)?;
    run(rt, Coding::Plain, P31, new, old, most)?;
    run(rt, Coding::Delta, P31, new, old, most)
}

// Short lists, the last with values at the widths of a varint.
pub fn short_lists<R: Print>(rt: &R) -> io::Result<()> {
    pair(rt, &[], &[], 0)?;
    pair(rt, &[], &[5], 0)?;
    pair(rt, &[7], &[], 7)?;
    pair(rt, &[63, 64, 16383, 16384], &[64, 0], 16384)?;
    pair(rt, &[10, 20, 30], &[11, 19, 500, 7], 30)?;
    pair(rt, &[P30 - 1, P30, P61 - 1, P62 - 1], &[P30], P62 - 1)
}

// Values too wide alone and too wide as a distance; then the widest distances, 2^61 - 1 up and 2^61 down, and one past each, from old values
// and from 2^31.
pub fn wide_lists<R: Print>(rt: &R) -> io::Result<()> {
    pair(rt, &[1, P62, 3], &[], P62)?;
    pair(rt, &[1, P62, 3], &[1, P62, 3, 4], P62)?;
    pair(rt, &[TOP], &[0], TOP)?;
    pair(rt, &[0], &[TOP], 0)?;
    pair(rt, &[P61 - 1, 0, 9], &[0, P61, 9, 9], P61 - 1)?;
    pair(rt, &[5, P61], &[5, 0], P61)?;
    pair(rt, &[6, 0], &[6, P61 + 1], 6)?;
    pair(rt, &[P31 + P61 - 1, P31 + P61], &[], P31 + P61)?;
    pair(
        rt,
        &[P31 - 32, P31 - 1, P31, P31 + 31, P31 + 32],
        &[],
        P31 + 32,
    )
}

// 64 values, the most that a chunk has, that climb, against old ones that are scattered, which end before them, and which go on.
pub fn long_lists<R: Print>(rt: &R) -> io::Result<()> {
    let mut new = [0u64; 66];
    let mut old = [0u64; 66];
    let mut up: u64 = 0;
    let mut about: u64 = 0;
    for i in 0..66 {
        new[i] = up;
        old[i] = about;
        up = (up + 300) % 20000;
        about = (about + 7919) % 20011;
    }
    pair(rt, &new[..64], &old[..40], 18900)?;
    pair(rt, &new[..64], &old, 18900)
}
