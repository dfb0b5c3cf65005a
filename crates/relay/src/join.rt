// A second receiver that starts at a full object, as on a capture that was cut there. It was opened like the first one, and from there on it has to give for
// each object the same number, front and payload, and keep the same reference. Only the number in the `mfhd` is another: it counts the objects that
// a receiver accepted, so that the second one's is less by the same each time, modulo 2^32.
use crate::calls;
use crate::calls::Answer;
use crate::passage::Passage;
use crate::tables::{SECOND, Tables};
use accounts::joins::Join;
use share_words::share::{HELD, SHARE};
use std::alloc::AllocError;

// Whether the first two slots of a table keep the same reference: all words of their shares behind the parameters and the count.
fn same_reference(table: &[u64]) -> bool {
    table.len() >= 2 * SHARE && table[HELD..SHARE] == table[SHARE + HELD..2 * SHARE]
}

// Whether two receivers made the same of an object but for the number in the `mfhd`, and by how much the second one's is less. Of an object that both refuse there
// is no chunk.
fn compared(first: Answer<'_>, second: Answer<'_>) -> (bool, Option<u64>) {
    match (first, second) {
        (Ok(a), Ok(b)) => {
            if a.front != b.front || a.bytes.len() != b.bytes.len() {
                return (false, None);
            }
            let c = mfhd_numbers::compare(a.front, a.bytes, b.bytes);
            (c.same, Some(c.less))
        }
        (Err(a), Err(b)) => (a == b, None),
        _ => (false, None),
    }
}

// After a chunk that became an object: the second receiver, in another slot of its table, gets it too, if it has started or starts now, at full object `at`.
pub fn follow(
    j: &mut Join,
    at: u64,
    chunk: u64,
    first: Passage<'_>,
    tables: &mut Tables,
    other: &mut Vec<u8>,
) -> Result<(), AllocError> {
    if first.rebuilt.is_ok() && !first.sent.delta {
        j.count_full(at, chunk);
    }
    if j.chunk.is_some() {
        let second = calls::receive(&mut tables.receiver, SECOND, first.object, other)?;
        let (same, less) = compared(first.rebuilt, second);
        j.count_object(chunk, same && same_reference(&tables.receiver), less);
    }
    Ok(())
}
