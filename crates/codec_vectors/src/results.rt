// What a command on a table answers, by its letter: a line with the number, or what the call for a chunk or an object gives.
// Letters: `v` a number, `b` bytes.
use crate::{chunks, objects};
use answers::answer::Handed;
use cmaf_read_tree::numbers;
use commands::{checksum, poke};
use refusal::{Refusal, number_in};
use slots::lawful::Side;
use std::io;

// What is shown of a front: its bytes, or their sum.
#[derive(Clone, Copy)]
pub enum Shown {
    Bytes,
    Sum,
}

// `99` is no number: it says that a command is not as it should be.
pub fn wrong<R: Print>(rt: &R) -> io::Result<()> {
    println!(rt; "99")
}

// The bytes of a front, two digits each; none where there aren't so many.
fn hex<R: Print>(rt: &R, output: &[u8], front: usize) -> io::Result<()> {
    for b in output.get(..front).unwrap_or(b"") {
        print!(rt; "{b:02x}")?;
    }
    Ok(())
}

// A call's number, the lengths of front and payload, and the front in the output.
pub fn told<R: Print>(
    rt: &R,
    given: Result<Handed<'_>, Refusal>,
    output: &[u8],
    shown: Shown,
) -> io::Result<()> {
    let number = number_in(&given);
    let (front, payload) = match given {
        Ok(h) => (h.front, h.payload.len()),
        Err(_) => (0, 0),
    };
    print!(rt; "{number} {front} {payload} ")?;
    match shown {
        Shown::Bytes => hex(rt, output, front as usize)?,
        Shown::Sum => print!(rt; "{}", checksum::checksum(output, front as usize))?,
    }
    println!(rt)
}

// A table of which the last word isn't lent.
pub fn short(table: &mut [u64]) -> &mut [u64] {
    match table.split_last_mut() {
        Some((_, rest)) => rest,
        None => &mut [],
    }
}

fn open<R: Print>(rt: &R, side: Side, table: &mut [u64], slot: u64, b: &[u8]) -> io::Result<()> {
    if b.len() != 64 {
        return wrong(rt);
    }
    let opened = slots::calls::open(
        side,
        table,
        slot,
        numbers::u64_at(b, 0),
        numbers::u64_at(b, 8),
        numbers::u64_at(b, 16),
        numbers::u64_at(b, 24),
        numbers::u64_at(b, 32),
        numbers::u64_at(b, 40),
        numbers::u64_at(b, 48),
        numbers::u64_at(b, 56),
    );
    println!(rt; "{}", number_in(&opened))
}

pub fn answer<R: Print + AllocGlobal>(
    rt: &R,
    side: Side,
    table: &mut [u64],
    call: u8,
    slot: u64,
    v: u64,
    b: &[u8],
) -> io::Result<()> {
    match call {
        b'o' => open(rt, side, table, slot, b),
        b'c' => println!(rt; "{}", number_in(&slots::calls::close(side, table, slot))),
        b'g' => println!(rt;
            "{}",
            number_in(&slots::calls::start_group(side, table, slot))
        ),
        b'w' => poke::poke(rt, table, slot, v),
        _ => match side {
            Side::Encoder => chunks::answer(rt, table, call, slot, v, b),
            Side::Receiver => objects::receive(rt, table, call, slot, v, b),
        },
    }
}
