// The two calls on a slot of a table, with the payload put behind the front that is written.
ghost use Rattle.std.specs.Prelude.{◌≤◌, IfOk, vec_len};

use answers::answer::Handed;
use refusal::Refusal;
use std::alloc::AllocError;

// What a call made, in the room that it was lent: front and payload, and how many of these bytes are the front.
#[derive(Clone, Copy)]
pub struct Made<'a> {
    pub bytes: &'a [u8],
    pub front: u64,
}

// What a call answers: what it made, or the number of the rule that was broken.
pub type Answer<'a> = Result<Made<'a>, u64>;

// No front is as long as this.
const FRONT: usize = 16384;

// A room of so many bytes or more. What it holds stays, so that a room that is lent again and again takes memory once.
fn widen(room: &mut Vec<u8>, need: usize) -> Result<(), AllocError>
    ensures { IfOk result (λ _. need ≤ vec_len room.new) }
{
    if room.len() < need {
        room.resize(need, 0)?;
    }
    Ok(())
}

// The payload behind the front.
fn put_together<'a>(given: Result<Handed<'_>, Refusal>, room: &'a mut [u8]) -> Answer<'a> {
    match given {
        Ok(h) => {
            let from = h.front as usize;
            let end = from.saturating_add(h.payload.len());
            match room.get_mut(from..end) {
                Some(behind) => behind.copy_from_slice(h.payload),
                None => return Err(Refusal::NoRoom.number()),
            }
            Ok(Made {
                bytes: &room[..end],
                front: h.front,
            })
        }
        Err(why) => Err(why.number()),
    }
}

// A chunk as an object, with the wish for a delta or for a full object.
pub fn encode<'a>(
    table: &mut [u64],
    slot: u64,
    delta: bool,
    chunk: &[u8],
    room: &'a mut Vec<u8>,
) -> Result<Answer<'a>, AllocError> {
    widen(room, chunk.len().saturating_add(FRONT))?;
    let given = encoder::encode::encode(table, slot, delta as u64, chunk, room);
    Ok(put_together(given, room))
}

// An object as a chunk.
pub fn receive<'a>(
    table: &mut [u64],
    slot: u64,
    object: &[u8],
    room: &'a mut Vec<u8>,
) -> Result<Answer<'a>, AllocError> {
    widen(room, object.len().saturating_add(FRONT))?;
    let given = receiver::receive::receive(table, slot, object, room);
    Ok(put_together(given, room))
}
