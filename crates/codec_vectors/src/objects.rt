// What a receiver answers to an object: the number, the length of the front, that of the payload, and the front's bytes.
use crate::results;
use crate::results::Shown;
use std::io;

// The most that may be asked for as room.
const ROOM: u64 = 4096;

// An object on a table, in so much room; for the letter s a word of the table is missing.
pub fn receive<R: Print + AllocGlobal>(
    rt: &R,
    table: &mut [u64],
    call: u8,
    slot: u64,
    room: u64,
    object: &[u8],
) -> io::Result<()> {
    if ROOM < room {
        return results::wrong(rt);
    }
    let lent = if call == b's' {
        results::short(table)
    } else {
        table
    };
    let mut output = vec![in rt.alloc(); 0u8; room as usize]?;
    let given = receiver::receive::receive(lent, slot, object, &mut output);
    results::told(rt, given, &output, Shown::Bytes)
}
