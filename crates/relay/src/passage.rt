// One chunk from end to end: as an object, as a chunk again, and once more as an object.
ghost use Rattle.std.specs.Prelude.{◌≡◌, IfOk};

use crate::calls::{Answer, Made};
use crate::tables::{FIRST, SECOND, Tables};
use crate::{calls, home};
use accounts::tally::Sent;
use std::alloc::{AllocError, Global};

// The rooms that are lent to a chunk's way: for its object, for the rebuilt chunk, and for what another slot makes of either. The next chunk's way takes them again.
#[derive(Drop)]
pub struct Rooms {
    pub object: Vec<u8>,
    pub rebuilt: Vec<u8>,
    pub other: Vec<u8>,
}

impl Rooms {
    pub fn new(alloc: Global) -> Rooms {
        Rooms {
            object: Vec::new(alloc),
            rebuilt: Vec::new(alloc),
            other: Vec::new(alloc),
        }
    }
}

// The object of a chunk, what the receiver made of it, and what is counted of the way.
#[derive(Clone, Copy)]
pub struct Passage<'a> {
    pub object: &'a [u8],
    pub rebuilt: Answer<'a>,
    pub sent: Sent,
}

// The first byte of a delta object: the header id 25.
const DELTA: u8 = 25;

// Whether the chunk that a receiver rebuilt gives the same object again.
fn comes_back(
    encoder: &mut [u64],
    delta: bool,
    object: &[u8],
    rebuilt: Answer<'_>,
    other: &mut Vec<u8>,
) -> Result<bool, AllocError> {
    let Ok(chunk) = rebuilt else {
        return Ok(false);
    };
    match calls::encode(encoder, SECOND, delta, chunk.bytes, other)? {
        Ok(second) => Ok(object == second.bytes),
        Err(_) => Ok(false),
    }
}

// The way back: an object that was made of a chunk of so many bytes, through the receiver, and the rebuilt chunk through the encoder.
fn pass_back<'a>(
    tables: &mut Tables,
    delta: bool,
    chunk: usize,
    made: Made<'a>,
    room: &'a mut Vec<u8>,
    other: &mut Vec<u8>,
) -> Result<Passage<'a>, AllocError>
    ensures { IfOk result (λ passage. passage.object.now ≡ made.entry.bytes.now) }
{
    let object = made.bytes;
    let home = home::left(&tables.encoder, object);
    let rebuilt = calls::receive(&mut tables.receiver, FIRST, object, room)?;
    let same = comes_back(&mut tables.encoder, delta, object, rebuilt, other)?;
    let payload = (object.len() as u64).saturating_sub(made.front);
    let sent = Sent {
        delta: object.first() == Some(&DELTA),
        cmaf: (chunk as u64).saturating_sub(payload),
        locmaf: made.front,
        payload,
        same,
        home,
    };
    Ok(Passage {
        object,
        rebuilt,
        sent,
    })
}

// A chunk on the tables, or the number that it is refused with.
pub fn pass<'a>(
    tables: &mut Tables,
    delta: bool,
    chunk: &[u8],
    object: &'a mut Vec<u8>,
    rebuilt: &'a mut Vec<u8>,
    other: &mut Vec<u8>,
) -> Result<Result<Passage<'a>, u64>, AllocError> {
    match calls::encode(&mut tables.encoder, FIRST, delta, chunk, object)? {
        Ok(made) => Ok(Ok(pass_back(tables, delta, chunk.len(), made, rebuilt, other)?)),
        Err(number) => Ok(Err(number)),
    }
}
