// Shares of which one word is damaged: at which words a value may stand.
use crate::calls::{WORDS, ask, turns};
use crate::text::{item, pair, start};
use share_words::share::{EXPECTED, SHARE, TABLE};
use slots::lawful::Side;
use std::io;

// The values that are tried at every word.
const VALUES: [u64; 23] = [
    0,
    1,
    2,
    8,
    16,
    31,
    32,
    39,
    40,
    41,
    42,
    43,
    64,
    65,
    0xffff,
    0x1_0000,
    0xff_ffff,
    0x100_0000,
    0xffff_ffff,
    0x1_0000_0000,
    0x3fff_ffff_ffff_ffff,
    0x4000_0000_0000_0000,
    0xffff_ffff_ffff_ffff,
];

// What a bad open says of a share where one word of the table is v, which is then put back.
fn damaged(side: Side, t: &mut [u64; WORDS], at: usize, v: u64) -> u64 {
    if at < TABLE {
        let old = t[at];
        t[at] = v;
        let r = ask(side, t, TABLE, b'b', (at / SHARE) as u64, 0, 5, 32);
        t[at] = old;
        return r;
    }
    99
}

// The same, where the BMDT that is expected moves with the word. Alone a BMDT or a duration that changes is 18 for its sum: only so are their bounds
// seen.
fn moved(side: Side, t: &mut [u64; WORDS], at: usize, v: u64) -> u64 {
    if at < TABLE {
        let time = at / SHARE * SHARE + EXPECTED;
        let old = t[time];
        t[time] = old.wrapping_add(v.wrapping_sub(t[at]));
        let r = damaged(side, t, at, v);
        t[time] = old;
        return r;
    }
    99
}

// How a value is put into a word: alone, or so that the BMDT that is expected moves with it.
#[derive(Clone, Copy, PartialEq, Eq)]
enum Put {
    Alone,
    Moved,
}

// The answers where each word in turn is v, a line for each share: 18 at first, and every other number at the word from which on it is given.
fn sweep<R: Print>(rt: &R, side: Side, t: &mut [u64; WORDS], put: Put, v: u64) -> io::Result<()> {
    let letter = match put {
        Put::Alone => 'v',
        Put::Moved => 'm',
    };
    let mut was = 18;
    for at in 0..TABLE {
        let i = (at % SHARE) as u64;
        if i == 0 {
            start(rt, side, (at / SHARE) as u64)?;
            item(rt, letter, v)?;
            was = 18;
        }
        let r = match put {
            Put::Alone => damaged(side, t, at, v),
            Put::Moved => moved(side, t, at, v),
        };
        if r != was {
            pair(rt, i, r)?;
        }
        was = r;
    }
    Ok(())
}

// Every value at every word, alone and with what is expected; then calls on every slot.
pub fn print<R: Print>(rt: &R, side: Side) -> io::Result<()> {
    let mut t = [0u64; WORDS];
    crate::shares::table(side, &mut t);
    for v in VALUES {
        sweep(rt, side, &mut t, Put::Alone, v)?;
        sweep(rt, side, &mut t, Put::Moved, v)?;
    }
    for slot in 0u64..8 {
        turns(rt, side, &mut t, TABLE, b"bggcgobg", slot)?;
    }
    Ok(())
}
