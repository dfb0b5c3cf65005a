// The index of a block by id: where each id's tuple stands, in three words, and the records of its events.
// Letters: `s` bytes that are read.
ghost use Rattle.std.specs.Prelude.{◌≡◌, ◌+◌, ◌^◌, ◌<◌, length};
ghost use Rattle.wire.specs.Form.{rows};
ghost use Rattle.locmaf_read_block.specs.Tuples.{part_of};
ghost use Rattle.locmaf_read_block.specs.Entries.{known};
ghost use Rattle.locmaf_read_index.specs.Places.{index_len};
ghost use Rattle.locmaf_read_index.specs.Index.{fresh, noted, weighed, heard, entry_at, heard_at, index_at};
ghost use Rattle.locmaf_read_index.specs.Index.{Weighable, Enterable, Indexable};

use crate::places;
use byte_parts::Part;
use locmaf_read_block::tuples::{Kind, Tuple};
use wire::form::Form;

// How reading a block went: all is readable and each id is known and stands once, or an id is unknown or stands twice, or something in the
// block ends too early.
#[derive(Clone, Copy)]
pub enum Indexed {
    Clean,
    Stray,
    Cut,
}

fn known_id(id: u64) -> bool
    ensures { result ≡ known id }
{
    ((1 <= id) & (id <= 16)) | (id == 18) | (id == 20) | ((22 <= id) & (id <= 25)) | (id == 27)
}

fn part_of(k: Kind) -> Part
    ensures { result ≡ part_of k }
{
    match k {
        Kind::Scalar(p) | Kind::Numbers(p) | Kind::Raw(p) | Kind::Records(p) => p,
    }
}

// How many numbers a tuple has, or records; those of events are kept. A list of varints or records can be cut.
fn weigh(form: Form, s: &[u8], k: Kind, events: &mut [u64]) -> Option<usize>
    requires { Weighable s.now k events.old }
    ensures { (result ≡ weighed (rows form) s.now k)
        × (events.new ≡ heard (rows form) s.now k events.old) }
{
    match k {
        Kind::Scalar(_) => Some(1),
        Kind::Numbers(p) => locmaf_read_block::numbers::count(form, s, p.at, p.at + p.len),
        Kind::Raw(p) => Some(p.len),
        Kind::Records(p) => {
            let at = p.at;
            let end = at + p.len;
            locmaf_read_block::records::read_list(form, &s[at..end], at, 0, &mut *events)
        }
    }
}

// The tuple from the place at, which ends before the place end, with its count. The records of events are kept.
fn entry_at(
    form: Form,
    s: &[u8],
    at: usize,
    end: usize,
    events: &mut [u64],
) -> Option<(Tuple, usize, usize)>
    requires { Enterable s.now at end events.old }
    ensures { (result ≡ entry_at (rows form) s.now at end)
        × (events.new ≡ heard_at (rows form) s.now at end events.old) }
{
    let (t, next) = locmaf_read_block::tuples::tuple_at(form, s, at, end)?;
    let count = weigh(form, s, t.kind, &mut *events)?;
    Some((t, count, next))
}

// Notes a tuple with its count in the words of its id, and says whether the id is known and had none.
fn note(out: &mut [u64], t: Tuple, count: usize) -> bool
    requires { (length out.old ≡ index_len) × ((part_of t.kind).at + 1 < 2 ^ 64) }
    ensures { (result ≡ fresh out.old t.id) × (out.new ≡ noted out.old t count) }
{
    let id = t.id;
    if !known_id(id) {
        return false;
    }
    let i = (id as usize) * places::EACH;
    if out[i] != 0 {
        return false;
    }
    let p = part_of(t.kind);
    out[i] = (p.at as u64) + 1;
    out[i + places::NUMBER] = t.number;
    out[i + places::COUNT] = count as u64;
    true
}

// Reads the block from the place at to the place end, and notes each tuple in the words of its id.
pub fn index(
    form: Form,
    s: &[u8],
    at: usize,
    end: usize,
    out: &mut [u64],
    events: &mut [u64],
) -> Indexed
    requires { Indexable s.now at end out.old events.old }
    ensures { (record { answer = result; words = out.new; events = events.new })
        ≡ index_at (rows form) s.now at end out.old events.old }
{
    let mut clean = true;
    let mut p = at;
    while p < end {
        let Some((t, count, next)) = entry_at(form, s, p, end, &mut *events) else {
            return Indexed::Cut;
        };
        clean = note(&mut *out, t, count) & clean;
        p = next;
    }
    if clean {
        return Indexed::Clean;
    }
    Indexed::Stray
}
