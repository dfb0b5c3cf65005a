// Calls on a fresh table: on each slot, on tables of a wrong length, beside an unlawful share, and with each parameter at its bounds and past
// them.
use crate::calls::{WORDS, ask, turns};
use crate::text::{item, pair, start};
use share_words::share::TABLE;
use slots::lawful::Side;
use std::io;

const TOP: u64 = 0xffff_ffff_ffff_ffff;

// The slots and those past them, beside an unlawful share; the parameters in turn without protection, and the IV size with the other schemes
// and with one that is none; then a fresh slot 4, and tables of a wrong length.
pub fn print<R: Print>(rt: &R, side: Side) -> io::Result<()> {
    for i in 0u64..11 {
        on_slot(rt, side, TABLE, i, i)?;
        if i < 8 {
            opens(rt, side, 0, i)?;
        } else {
            opens(rt, side, i - 7, 7)?;
        }
    }
    on_slot(rt, side, TABLE, 4, 0)?;
    on_slot(rt, side, TABLE, TOP, 0)?;
    on_slot(rt, side, TABLE - 1, 8, 1)?;
    on_slot(rt, side, TABLE + 1, 4, 1)?;
    on_slot(rt, side, TABLE + 1, TOP, 0)
}

// Calls on a slot, where a word in the share of slot 4 is v.
fn on_slot<R: Print>(rt: &R, side: Side, words: usize, slot: u64, v: u64) -> io::Result<()> {
    let mut t = [0u64; WORDS];
    t[4000] = v;
    turns(rt, side, &mut t, words, b"cgbobogc", slot)
}

// Opens with a scheme of protection, whose parameter k has each of ten values.
fn opens<R: Print>(rt: &R, side: Side, scheme: u64, k: u64) -> io::Result<()> {
    start(rt, side, 5)?;
    item(rt, 's', scheme)?;
    item(rt, 'p', k)?;
    for v in [0, 1, 7, 8, 16, 31, 32, 0xffff_ffff, 0x1_0000_0000, TOP] {
        let mut t = [0u64; WORDS];
        pair(rt, v, ask(side, &mut t, TABLE, b'o', 5, scheme, k, v))?;
    }
    Ok(())
}
