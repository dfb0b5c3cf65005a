// What an encoder answers to a chunk: the number, the length of the front, that of the payload, and the front's bytes, or their sum.
use crate::results;
use crate::results::Shown;
use share_words::share::TABLE;
use std::io;

// The most that may be asked for as room.
const ROOM: u64 = 65536;

// A chunk with a wish for a delta or for a full object, on the first words of a table, in so much room.
fn encode<R: Print + AllocGlobal>(
    rt: &R,
    table: &mut [u64],
    slot: u64,
    delta: bool,
    room: u64,
    chunk: &[u8],
    shown: Shown,
) -> io::Result<()> {
    if ROOM < room {
        return results::wrong(rt);
    }
    let mut output = vec![in rt.alloc(); 0u8; room as usize]?;
    let given = encoder::encode::encode(table, slot, delta as u64, chunk, &mut output);
    results::told(rt, given, &output, shown)
}

// By the letter b a chunk of a track: always as a full object on the first slot, and with the wish for a delta on the second. Else the wish of the letter: a full
// object for f, and for s, where a word of the table is missing; else a delta.
pub fn answer<R: Print + AllocGlobal>(
    rt: &R,
    table: &mut [u64],
    call: u8,
    slot: u64,
    room: u64,
    chunk: &[u8],
) -> io::Result<()> {
    match call {
        b'b' => {
            encode(rt, &mut *table, 0, false, room, chunk, Shown::Sum)?;
            encode(rt, table, 1, true, room, chunk, Shown::Sum)
        }
        b's' => encode(
            rt,
            results::short(table),
            slot,
            false,
            room,
            chunk,
            Shown::Bytes,
        ),
        b'f' => encode(rt, table, slot, false, room, chunk, Shown::Bytes),
        _ => encode(rt, table, slot, true, room, chunk, Shown::Bytes),
    }
}
