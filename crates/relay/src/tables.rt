// The tables of an encoder and a receiver.
use accounts::words;
use inputs::errors::{Error, Wrong};
use inputs::files;
use refusal::Refusal;
use share_words::share::TABLE;
use slots::lawful::Side;
use std::alloc::Global;
use track::Asked;

// The slots. The first of each table is the track's. The second of the encoder's is for an encoder that sees only what was rebuilt, that of the receiver's for a
// receiver that starts later.
pub const FIRST: u64 = 0;

pub const SECOND: u64 = 1;

#[derive(Drop)]
pub struct Tables {
    pub encoder: Vec<u64>,
    pub receiver: Vec<u64>,
}

fn open_slot(side: Side, table: &mut [u64], slot: u64, a: Asked) -> Result<(), Refusal> {
    slots::calls::open(
        side,
        table,
        slot,
        a.track,
        a.timescale,
        a.description,
        a.duration,
        a.size,
        a.flags,
        a.protection,
        a.iv_size,
    )
}

impl Tables {
    // Fresh ones, with both slots of each opened. All four answer the same.
    pub fn open(alloc: Global, params: Asked) -> Result<Tables, Error> {
        let mut encoder = vec![in alloc; 0u64; TABLE]?;
        let mut receiver = vec![in alloc; 0u64; TABLE]?;
        let opened = open_slot(Side::Encoder, &mut encoder, FIRST, params)
            .and(open_slot(Side::Encoder, &mut encoder, SECOND, params))
            .and(open_slot(Side::Receiver, &mut receiver, FIRST, params))
            .and(open_slot(Side::Receiver, &mut receiver, SECOND, params));
        if let Err(why) = opened {
            let number = why.number();
            return Err(Error::Bad(
                files::PARAMS,
                Wrong::NotOpened(number, words::meaning(number)),
            ));
        }
        Ok(Tables { encoder, receiver })
    }
}
