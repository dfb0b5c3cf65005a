// What is printed of a run: its measure, its bytes, and what they are read back as, with one thing wrong at a time.
// Letters: `s` bytes that are read, `n` how many.
use crate::text;
use crate::text::hex;
use printing::{word, worded};
use runs::Misread;
use std::io;
use wire::form::Form;
use wire::zigzag::Coding;

// Where a run starts in its bytes: not at the front, so that a place that is left out shows.
const AT: usize = 3;

// Where its values start in their words.
const TO: usize = 2;

// What the words hold before reading; no list has it.
const UNREAD: u64 = 0xeeee_eeee_eeee_eeee;

// The words, with `_` for one that nothing was read into.
pub fn words<R: Print>(rt: &R, list: &[u64]) -> io::Result<()> {
    for v in list {
        if *v == UNREAD {
            word(rt, text::BLANK)?;
        } else {
            worded(rt, text::SPACE, *v)?;
        }
    }
    Ok(())
}

// What n values, none above the bound, are read as from the bytes from one place to another. Where the words have no room nothing is printed,
// which the stored output shows.
pub fn read_back<R: Print>(
    rt: &R,
    coding: Coding,
    s: &[u8],
    at: usize,
    last: usize,
    old: &[u64],
    base: u64,
    bound: u64,
    n: usize,
) -> io::Result<()> {
    if 66 < n {
        return Ok(());
    }
    word(rt, text::FILL)?;
    worded(rt, text::END, last as u64)?;
    worded(rt, text::BOUND, bound)?;
    worded(rt, text::WANTED, n as u64)?;
    let mut out = [UNREAD; 70];
    let r = runs::fill(
        Form::Rfc9000,
        coding,
        s,
        at,
        last,
        old,
        base,
        bound,
        &mut out,
        TO,
        n,
    );
    answer(rt, r)?;
    words(rt, &out[TO..TO + n])?;
    word(rt, text::LINE)
}

fn answer<R: Print>(rt: &R, r: Result<(), Misread>) -> io::Result<()> {
    let w = match r {
        Ok(()) => text::DONE,
        Err(Misread::Misfit) => text::MISFIT,
        Err(Misread::Outside) => text::OUTSIDE,
    };
    word(rt, w)
}

// Reads n values back: as they were written, with a bound one too small, with one more and one fewer wanted, and with the last byte cut. One
// fewer than none is more than there is room for, so that nothing is printed.
fn fills<R: Print>(
    rt: &R,
    coding: Coding,
    s: &[u8],
    last: usize,
    old: &[u64],
    base: u64,
    most: u64,
    n: usize,
) -> io::Result<()> {
    read_back(rt, coding, s, AT, last, old, base, most, n)?;
    if 0 < most {
        read_back(rt, coding, s, AT, last, old, base, most - 1, n)?;
    }
    read_back(
        rt,
        coding,
        s,
        AT,
        last,
        old,
        base,
        most,
        std::num::wrapping_add_usize(n, 1),
    )?;
    read_back(
        rt,
        coding,
        s,
        AT,
        last,
        old,
        base,
        most,
        std::num::wrapping_sub_usize(n, 1),
    )?;
    if AT < last {
        read_back(rt, coding, s, AT, last - 1, old, base, most, n)?;
    }
    Ok(())
}

// How the values stand on the wire, and what an absent old one counts as.
pub fn kind<R: Print>(rt: &R, coding: Coding, base: u64) -> io::Result<()> {
    let w = match coding {
        Coding::Plain => text::PLAIN,
        Coding::Delta => text::DELTA,
    };
    word(rt, w)?;
    worded(rt, text::BASE, base)
}

fn measured<R: Print>(rt: &R, m: Option<usize>) -> io::Result<()> {
    word(rt, text::MEASURE)?;
    match m {
        Some(k) => worded(rt, text::SPACE, k as u64),
        None => {
            word(rt, text::TOO)?;
            word(rt, text::WIDE)
        }
    }
}

// The run of a list of at most 64 values, none above the most, each of at most 8 bytes: its bytes have room for no more.
pub fn run<R: Print>(
    rt: &R,
    coding: Coding,
    base: u64,
    new: &[u64],
    old: &[u64],
    most: u64,
) -> io::Result<()> {
    if 64 < new.len() {
        return Ok(());
    }
    kind(rt, coding, base)?;
    measured(rt, runs::measure(Form::Rfc9000, coding, new, old, base))?;
    let mut s = [0xeeu8; 520];
    let last = runs::put(Form::Rfc9000, coding, new, old, base, &mut s, AT);
    hex(rt, text::BYTES, &s, AT, last)?;
    word(rt, text::LINE)?;
    fills(rt, coding, &s, last, old, base, most, new.len())
}
