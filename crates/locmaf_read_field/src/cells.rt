// One field of the new set.
// Letters: `o` an object's bytes, `t` the track, `r` the words of the reference's set, `l` a line of the table of fields, `m` the lengths that
//   fields go by, `x` the words of the new set.
ghost use Rattle.std.specs.Prelude.{◌≡◌, cond, ◌+◌, ◌*◌, ◌≤◌, ◌<◌, [], length, get_or};
ghost use Rattle.std.proofs.Math.Seq.{slice};
ghost use Rattle.std.proofs.lemmas.List.Edits.{sets};
ghost use Rattle.laws.specs.Bytes.{de};
ghost use Rattle.wire.specs.Form.{rows};
ghost use Rattle.field_table.specs.Lines.{wanted, Small};
ghost use Rattle.locmaf_read_said.specs.declared.said.Word.TheVariants.{Sent};
ghost use Rattle.locmaf_read_field.specs.Cells.{right, misfit_of, out_of_range, filled_as, carried, sent_one, sent_ivs, kept_field, sent_field, values_at, values_if, span_bytes, list_sent, sent_in, said, cell_of, TakenAs, Clear, TakenIf, Listable, Spans, RegionFits, Takeable};
ghost use Rattle.field_rules.specs.Fields.{packed};

use field_rules::carried::carries;
use field_rules::rules::{absent_value, coding_of, is_ivs};
use field_table::lines;
use field_table::lines::{Line, Measure, Want};
use locmaf_read_said::said::{Span, Word};
use runs::Misread;
use track::Track;
use wire::form::Form;
use wire::zigzag::Coding;
use word_spans::words;

// What a field came to: that its length is right (asked of ids 13 and 15 only with the set's rules), and that its values are in range.
#[derive(Clone, Copy)]
pub struct Cell {
    pub first: bool,
    pub second: bool,
    pub within: bool,
}

pub fn well() -> Cell
    ensures { result ≡ right }
{
    Cell {
        first: true,
        second: true,
        within: true,
    }
}

// A length that is not the required one.
fn misfit(want: Want) -> Cell
    ensures { result ≡ misfit_of want }
{
    match want {
        Want::One | Want::LessOne | Want::Count | Want::Ivs => Cell {
            first: false,
            second: true,
            within: true,
        },
        Want::Sum => Cell {
            first: true,
            second: false,
            within: true,
        },
    }
}

fn outside() -> Cell
    ensures { result ≡ out_of_range }
{
    Cell {
        first: true,
        second: true,
        within: false,
    }
}

// The word of eight bytes, the highest first.
fn word_at(o: &[u8], at: usize) -> u64
    requires { at + 8 ≤ length o.now }
    ensures { result ≡ de (slice at (at + 8) o.now) }
{
    let mut v = 0;
    for i in 0..8 {
        v = v * 256 + wire::varint::wide(o[at + i]);
    }
    v
}

// k words of eight bytes.
fn pack(o: &[u8], at: usize, k: usize, x: &mut [u64], to: usize)
    requires { (at + 8 * k ≤ length o.now) × (to + k ≤ length x.old) }
    ensures { x.new ≡ sets x.old to (packed k (slice at (at + 8 * k) o.now)) }
{
    for i in 0..k {
        x[to + i] = word_at(o, at + 8 * i);
    }
}

// A field of which the object says nothing: it had j values, and is to have k. IVs are derived later: they get room, and none of the old ones.
// The room takes no store, since the words are 0 before they are read.
fn carry(r: &[u64], l: Line, j: usize, k: usize, x: &mut [u64]) -> Cell
    requires { (l.place + 1 + k ≤ length r.now) × (l.place + 1 + k ≤ length x.old) }
    ensures { TakenIf (Clear l k x.old) (carried l.want j k (values_at r.now l j))
        l.place x.old result x.new }
{
    let want = l.want;
    let place = l.place;
    if is_ivs(want) {
        x[place] = 1;
        return well();
    }
    if !carries(j, k) {
        return misfit(want);
    }
    x[place] = 1;
    let from = place + 1;
    words::copy(r, from, k, x, from);
    well()
}

// A single value.
fn send_one(coding: Coding, z: u64, old: u64, l: Line, x: &mut [u64]) -> Cell
    requires { l.place + 2 ≤ length x.old }
    ensures { TakenAs (sent_one coding old l.bound z) l.place x.old result x.new }
{
    let place = l.place;
    let Some(v) = wire::zigzag::reach(coding, old, l.bound, z) else {
        return outside();
    };
    x[place] = 1;
    x[place + 1] = v;
    well()
}

// The IVs, which are sent as bytes and kept as words of eight.
fn send_ivs(o: &[u8], span: Span, l: Line, k: usize, x: &mut [u64]) -> Cell
    requires { (span.at + span.number ≤ length o.now) × (l.place + 1 + k ≤ length x.old) }
    ensures { TakenAs (sent_ivs l.want k (span_bytes o.now span))
        l.place x.old result x.new }
{
    let want = l.want;
    let place = l.place;
    if span.number != 8 * k as u64 {
        return misfit(want);
    }
    x[place] = 1;
    pack(o, span.at, k, x, place + 1);
    well()
}

// What a list that was read against its old values came to.
fn filled(f: Result<(), Misread>) -> Cell
    ensures { result ≡ (filled_as f []).cell }
{
    if f.is_ok() { well() } else { outside() }
}

// A list, against the u old values of the reference.
fn send_list(
    form: Form,
    coding: Coding,
    o: &[u8],
    span: Span,
    r: &[u64],
    u: usize,
    base: u64,
    l: Line,
    k: usize,
    x: &mut [u64],
) -> Cell
    requires { Listable (rows form) o.now l.want span l.place r.now u k x.old }
    ensures { TakenAs
        (list_sent (rows form) o.now coding base l span k (values_at r.now l u))
        l.place x.old result x.new }
{
    let want = l.want;
    let place = l.place;
    if is_ivs(want) {
        return send_ivs(o, span, l, k, x);
    }
    if span.count != k as u64 {
        return misfit(want);
    }
    x[place] = 1;
    let at = span.at;
    let from = place + 1;
    let f = runs::fill(
        form,
        coding,
        o,
        at,
        at + span.number as usize,
        &r[from..from + u],
        base,
        l.bound,
        x,
        from,
        k,
    );
    filled(f)
}

// The old value at a place, or `base` where the field didn't stand.
fn old_value(r: &[u64], stood: bool, at: usize, base: u64) -> u64
    requires { at < length r.now }
    ensures { result ≡ cond stood (get_or r.now at 0) base }
{
    if stood { r[at] } else { base }
}

// How many old values there are.
fn old_length(stood: bool, want: Want, was: Measure) -> usize
    requires { Small was }
    ensures { result ≡ cond stood (wanted want was) 0 }
{
    if stood {
        lines::length_of(want, was)
    } else {
        0
    }
}

// A field that is omitted, and is carried on where it stood.
fn keep(stood: bool, r: &[u64], was: Measure, l: Line, m: Measure, x: &mut [u64]) -> Cell
    requires small { (Small was) × (Small m) }
    requires m_in_bounds { (l.place + 1 + wanted l.want m ≤ length r.now)
        × (l.place + 1 + wanted l.want m ≤ length x.old) }
    ensures { TakenIf (Clear l (wanted l.want m) x.old)
        (kept_field stood l.want (wanted l.want was) (wanted l.want m)
        (values_at r.now l (wanted l.want was)))
        l.place x.old result x.new }
{
    if !stood {
        return well();
    }
    let want = l.want;
    carry(
        r,
        l,
        lines::length_of(want, was),
        lines::length_of(want, m),
        x,
    )
}

// A field that is sent: one value or a list.
fn send(
    form: Form,
    coding: Coding,
    o: &[u8],
    span: Span,
    t: Track,
    stood: bool,
    r: &[u64],
    was: Measure,
    l: Line,
    m: Measure,
    x: &mut [u64],
) -> Cell
    requires region_fits { RegionFits l stood r.now x.old was m }
    requires spans { Spans (rows form) o.now l (Sent span) }
    ensures { TakenAs
        (sent_field t coding l m (values_if stood r.now was l) (sent_in (rows form) o.now l span))
        l.place x.old result x.new }
{
    let place = l.place;
    let want = l.want;
    let absent = l.absent;
    let base = absent_value(t, absent);
    let c = coding_of(coding, absent);
    if l.room == 1 {
        return send_one(c, span.number, old_value(r, stood, place + 1, base), l, x);
    }
    let k = lines::length_of(want, m);
    let u = old_length(stood, want, was);
    send_list(form, c, o, span, r, u, base, l, k, x)
}

// One field: `held` says that there is a reference r, whose lengths go by `was`, and the new ones by `m`.
pub fn take(
    form: Form,
    coding: Coding,
    o: &[u8],
    word: Word,
    t: Track,
    held: bool,
    r: &[u64],
    was: Measure,
    l: Line,
    m: Measure,
    x: &mut [u64],
) -> Cell
    requires takeable { Takeable l held r.now x.old was m }
    requires spans { Spans (rows form) o.now l word }
    ensures { TakenIf (Clear l (wanted l.want m) x.old)
        (cell_of t coding held r.now was l m (said (rows form) o.now l word))
        l.place x.old result x.new }
{
    let place = l.place;
    let stood = held & (r[place] != 0);
    match word {
        Word::Deleted => well(),
        Word::Omitted => keep(stood, r, was, l, m, x),
        Word::Sent(span) => send(form, coding, o, span, t, stood, r, was, l, m, x),
    }
}
