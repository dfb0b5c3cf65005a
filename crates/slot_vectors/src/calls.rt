// Calls on the table, and what is printed of them.
// Letters: `t` a table, `k` a number of the table of answers, `v` a number.
use crate::text::{item, pair, start};
use refusal::number_in;
use share_words::share::{SHARE, TABLE};
use slots::lawful::Side;
use std::io;

// The words that are lent: a table's, and one more.
pub const WORDS: usize = TABLE + 1;

fn pick(k: u64, at: u64, v: u64, other: u64) -> u64 {
    if k == at { v } else { other }
}

// What a call on the first words answers: c closes, g starts a group, and any other letter opens, with parameters of a track but for the
// scheme of protection and for the one with the number k, which is v.
pub fn ask(
    side: Side,
    t: &mut [u64],
    words: usize,
    call: u8,
    slot: u64,
    scheme: u64,
    k: u64,
    v: u64,
) -> u64 {
    if t.len() < words {
        return 99;
    }
    let table = &mut t[..words];
    let answer = match call {
        b'c' => slots::calls::close(side, table, slot),
        b'g' => slots::calls::start_group(side, table, slot),
        _ => slots::calls::open(
            side,
            table,
            slot,
            pick(k, 0, v, 1),
            pick(k, 1, v, 48000),
            pick(k, 2, v, 2),
            pick(k, 3, v, 1024),
            pick(k, 4, v, 4),
            pick(k, 5, v, 10),
            pick(k, 6, v, scheme),
            pick(k, 7, v, 0),
        ),
    };
    number_in(&answer)
}

// The words that are not 0, up to the end of a slot's share.
fn left<R: Print>(rt: &R, t: &[u64; WORDS], slot: u64) -> io::Result<()> {
    for (i, v) in t.iter().enumerate() {
        if *v != 0 && (i / SHARE) as u64 <= slot {
            pair(rt, i as u64, *v)?;
        }
    }
    Ok(())
}

// A call, its answer, and what is left where it is done. The letter b opens with flags that no track has: it stores nothing, and its number
// says what the share is: 18 where it is unlawful, 3 where it is open, 4 where it is closed.
fn turn<R: Print>(
    rt: &R,
    side: Side,
    t: &mut [u64; WORDS],
    words: usize,
    call: u8,
    slot: u64,
) -> io::Result<()> {
    let flags = if call == b'b' { 32 } else { 31 };
    let r = ask(side, t, words, call, slot, 0, 5, flags);
    item(rt, call as char, r)?;
    if r == 0 {
        left(rt, t, slot)?;
    }
    Ok(())
}

// Eight calls on a slot of the first words; then how many words there are, and what is left.
pub fn turns<R: Print>(
    rt: &R,
    side: Side,
    t: &mut [u64; WORDS],
    words: usize,
    calls: &[u8; 8],
    slot: u64,
) -> io::Result<()> {
    start(rt, side, slot)?;
    for call in calls {
        turn(rt, side, t, words, *call, slot)?;
    }
    item(rt, 'w', words as u64)?;
    left(rt, t, slot)
}
