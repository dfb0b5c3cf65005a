// Counters that were left at home: the IVs of a cenc track that follow from those before, so that a delta says nothing of them.
use constants::{ids, maxima};
use event_value::ALL_WORDS;
use field_table::lines;
use locmaf_read_head::head;
use locmaf_read_index::{index, places};
use share_words::share;
use wire::form::Form;
use wire::varint;

// Whether the block from one place up to another has the tuple.
fn says_ivs(object: &[u8], at: usize, end: usize) -> bool {
    if end < at {
        return true;
    }
    if object.len() < end {
        return true;
    }
    if maxima::BLOCK < (end - at) as u64 {
        return true;
    }
    let mut words = [0u64; places::INDEX];
    let mut events = [0u64; ALL_WORDS];
    index::index(Form::Rfc9000, object, at, end, &mut words, &mut events);
    words[places::IVS] != 0
}

fn number(v: u64) -> u64 {
    varint::size(Form::Rfc9000, v) as u64
}

// What n bytes of IVs would add to a block: their tuple (id, length and IVs), and what its own length would take more.
fn added(block: u64, n: u64) -> u64 {
    let tuple = number(ids::IVS).saturating_add(number(n)).saturating_add(n);
    let before = number(block);
    let after = number(block.saturating_add(tuple));
    tuple.saturating_add(after.saturating_sub(before))
}

// What an object did without, if its chunk has n bytes of IVs: nothing, where it has them.
fn spared(object: &[u8], n: u64) -> u64 {
    match head::head_of(Form::Rfc9000, object) {
        Ok(p) if !says_ivs(object, p.at, p.end) => {
            added((p.end as u64).saturating_sub(p.at as u64), n)
        }
        _ => 0,
    }
}

// The bytes of the IVs of so many samples.
fn iv_bytes(samples: u64, iv_size: u64) -> u64 {
    if samples > maxima::SAMPLES as u64 {
        return 0;
    }
    if iv_size == 16 {
        samples * 16
    } else {
        samples * 8
    }
}

// The object of the chunk that the first slot of an encoder's table has as its reference: how many bytes of IVs it did without, if the chunk has any.
pub fn left(table: &[u64], object: &[u8]) -> Option<u64> {
    let share = table.get(..share::SHARE)?;
    if share[share::SET + lines::IVS] == 0 {
        return None;
    }
    let n = iv_bytes(share[share::SET + lines::COUNT], share[share::IV_SIZE]);
    Some(spared(object, n))
}
