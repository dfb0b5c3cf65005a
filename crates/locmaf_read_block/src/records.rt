// The records of an emsg list, and the reader of the list, which takes one record off the front and calls itself on the rest. That it ends says
// nothing of the stack: a list may have 2,340 records, so the calls are counted, and past the budget a walk goes on.
// Letters: `s` bytes that are read, `n` how many.
ghost use Rattle.std.specs.Prelude.{◌≡◌, [], ◌∷◌, ◌+◌, ◌≤◌, length};
ghost use Rattle.std.proofs.lemmas.List.Edits.{sets};
ghost use Rattle.wire.specs.Form.{rows};
ghost use Rattle.event_value.specs.Events.{events_len};
ghost use Rattle.locmaf_read_block.specs.Records.{text_at, names_at, marks_at, record_f, records_run};
ghost use Rattle.locmaf_read_block.specs.Records.{kept, Placed, Listable, ListedAs};

use crate::walk;
use byte_parts::Part;
use constants::maxima;
use wire::form::Form;

// A record: the parts of its strings and its message, and its numbers as they stand.
#[derive(Clone, Copy)]
pub struct Record {
    pub scheme: Part,
    pub value: Part,
    pub timescale: u64,
    pub time: u64,
    pub duration: u64,
    pub id: u64,
    pub message: Part,
}

// The four numbers in the middle of a record.
#[derive(Clone, Copy)]
pub struct Marks {
    pub timescale: u64,
    pub time: u64,
    pub duration: u64,
    pub id: u64,
}

// The text at the place q of s, whose first byte has the place `base` in the block.
fn text_at(form: Form, s: &[u8], base: usize, q: usize) -> Option<(Part, usize)>
    requires { Placed base s.now }
    ensures { result ≡ text_at (rows form) base q s.now }
{
    let (n, p) = wire::varint::read(form, s, q, s.len())?;
    if ((s.len() - p) as u64) < n {
        return None;
    }
    let len = n as usize;
    Some((Part { at: base + p, len }, p + len))
}

// The two texts off the front of s.
fn names_at(form: Form, s: &[u8], base: usize) -> Option<(Part, Part, usize)>
    requires { Placed base s.now }
    ensures { result ≡ names_at (rows form) base s.now }
{
    let (scheme, after_scheme) = text_at(form, s, base, 0)?;
    let (value, after_value) = text_at(form, s, base, after_scheme)?;
    Some((scheme, value, after_value))
}

// The four numbers at the place q of s.
fn marks_at(form: Form, s: &[u8], q: usize) -> Option<(Marks, usize)>
    ensures { result ≡ marks_at (rows form) q s.now }
{
    let (timescale, after_timescale) = wire::varint::read(form, s, q, s.len())?;
    let (time, after_time) = wire::varint::read(form, s, after_timescale, s.len())?;
    let (duration, after_duration) = wire::varint::read(form, s, after_time, s.len())?;
    let (id, after_id) = wire::varint::read(form, s, after_duration, s.len())?;
    Some((
        Marks {
            timescale,
            time,
            duration,
            id,
        },
        after_id,
    ))
}

// The record off the front of s.
pub fn record_of(form: Form, s: &[u8], base: usize) -> Option<(Record, usize)>
    requires { Placed base s.now }
    ensures { result ≡ record_f (rows form) base s.now }
{
    let (scheme, value, after_names) = names_at(form, s, base)?;
    let (marks, after_marks) = marks_at(form, s, after_names)?;
    let (message, after_message) = text_at(form, s, base, after_marks)?;
    Some((
        Record {
            scheme,
            value,
            timescale: marks.timescale,
            time: marks.time,
            duration: marks.duration,
            id: marks.id,
            message,
        },
        after_message,
    ))
}

// Stores five words from the word at on.
fn put_five(out: &mut [u64], at: usize, a: u64, b: u64, c: u64, d: u64, e: u64)
    requires { at + 5 ≤ length out.old }
    ensures { out.new ≡ sets out.old at (a ∷ b ∷ c ∷ d ∷ e ∷ []) }
{
    out[at] = a;
    out[at + 1] = b;
    out[at + 2] = c;
    out[at + 3] = d;
    out[at + 4] = e;
}

// Keeps a record as the n-th of its list, where n is below the events that a block can have.
pub(crate) fn keep(out: &mut [u64], n: usize, r: Record)
    requires { length out.old ≡ events_len }
    ensures { out.new ≡ kept out.old n r }
{
    if maxima::EVENTS <= n {
        return;
    }
    let at = event_value::WORDS * n;
    put_five(
        &mut *out,
        at,
        r.scheme.at as u64,
        r.scheme.len as u64,
        r.value.at as u64,
        r.value.len as u64,
        r.timescale,
    );
    put_five(
        &mut *out,
        at + 5,
        r.time,
        r.duration,
        r.id,
        r.message.at as u64,
        r.message.len as u64,
    );
}

// The most records that are read by calls. The walk keeps records as the calls do, so the number is a matter of the stack alone.
const BUDGET: usize = 8;

// How many records the list s is, with n before it. The first 16 are kept, each in the words of an event.
pub fn read_list(form: Form, s: &[u8], base: usize, n: usize, out: &mut [u64]) -> Option<usize>
    requires { Listable s.now base n out.old }
    ensures { ListedAs (records_run (rows form) base s.now) n out.old result
        out.new }
{
    read_rest(form, s, base, n, BUDGET, &mut *out)
}

// The same by so many calls, and by a walk if there are more records.
fn read_rest(
    form: Form,
    s: &[u8],
    base: usize,
    n: usize,
    budget: usize,
    out: &mut [u64],
) -> Option<usize>
    requires { Listable s.now base n out.old }
    ensures { ListedAs (records_run (rows form) base s.now) n out.old result
        out.new }
{
    if budget == 0 {
        return walk::walk_list(form, s, base, n, &mut *out);
    }
    if s.len() == 0 {
        return Some(n);
    }
    let (r, k) = record_of(form, s, base)?;
    keep(&mut *out, n, r);
    read_rest(form, &s[k..], base + k, n + 1, budget - 1, &mut *out)
}
