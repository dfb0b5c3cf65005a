// One field of the set, whichever it is: what the object says of it by its line in the table, its bytes, and the bytes written.
// Letters: `t` the track, `b` what is written against what, `r` the words of the reference's set, `x` the words of the new set, `i` which one,
//   counted from 0.
ghost use Rattle.std.specs.Prelude.{◌≡◌, true, ◌++◌, ◌+◌, ◌*◌, ◌≤◌, ◌<◌, length, get_or};
ghost use Rattle.std.proofs.Math.Seq.{slice};
ghost use Rattle.laws.specs.Tests.{same};
ghost use Rattle.laws.specs.Writes.{Wrote};
ghost use Rattle.wire.specs.Form.{rows};
ghost use Rattle.wire.specs.Varint.{encode};
ghost use Rattle.wire.specs.Zigzag.{code_of};
ghost use Rattle.constants.specs.Maxima.{subsamples_most};
ghost use Rattle.field_table.specs.Lines.{set_len};
ghost use Rattle.laws.specs.Options.{is_some};
ghost use Rattle.runs.specs.Run.{first};
ghost use Rattle.track.specs.declared.Track.{Track};
ghost use Rattle.field_rules.specs.Fields.{stood, old_values};
ghost use Rattle.locmaf_write_tuples.specs.Items.{wide_bytes, bytes_of, WeighedAs, RoomFor, WroteItems};
ghost use Rattle.locmaf_write_block.specs.Changes.{chunk_lines, stands, change_of, sent_items, Based, ChunkLine, Measured, line_most, list_item, coded_item};
ghost use Rattle.locmaf_write_block.specs.Fields.{field_at};

use field_rules::rules::{absent_value, field_coding, is_ivs};
use field_table::lines;
use field_table::lines::{Line, Measure, Want};
use locmaf_write_tuples::tuples;
use track::Track;
use wire::form::Form;
use wire::zigzag::Coding;

// What is written: a delta or a full object, whether the IVs follow from the reference's, and the lengths that the fields of the reference and of the new set go by.
#[derive(Clone, Copy)]
pub struct Basis {
    pub delta: bool,
    pub follow: bool,
    pub was: Measure,
    pub now: Measure,
}

// What an object says of a field.
#[derive(Clone, Copy)]
pub enum Change {
    Omitted,
    Deleted,
    Sent,
}

// Whether two lists are the same. No number decides alone, so that nothing branches in the loop: mostly they are the same.
fn same_list(a: &[u64], b: &[u64]) -> bool
    ensures { result ≡ same a.now b.now }
{
    if a.len() != b.len() {
        return false;
    }
    let mut ok = true;
    for i in 0..a.len() {
        ok = ok & (a[i] == b[i]);
    }
    ok
}

// Whether there is an old field to go by: a full object goes by nothing, whatever the share holds.
fn has_old(b: Basis, r: &[u64], l: Line) -> bool
    requires { l.place < length r.now }
    ensures { result ≡ stood b.delta r.now l }
{
    let place = l.place;
    b.delta & (r[place] != 0)
}

// How many old values a field's numbers go by.
fn old_length(b: Basis, r: &[u64], l: Line) -> usize
    requires chunk_line { ChunkLine l }
    requires measured { Measured b.was r.now }
    ensures { (l.place + 1 + result ≤ length r.now)
        × (old_values b.delta r.now b.was l
        ≡ slice (l.place + 1) (l.place + 1 + result) r.now) }
{
    let want = l.want;
    let was = b.was;
    if has_old(b, r, l) {
        return lines::length_of(want, was);
    }
    0
}

// What the object says of a field. Two lists are equal only if their lengths are too: words that aren't in use are 0, as a value can be.
fn change_of(b: Basis, r: &[u64], x: &[u64], l: Line) -> Change
    requires chunk_line { ChunkLine l }
    requires based { (t : Track) × Based t b r.now x.now }
    ensures { (t : Track) → Based t b r.now x.now
        → result ≡ change_of t b.delta b.follow r.now x.now l }
{
    let place = l.place;
    let from = place + 1;
    let want = l.want;
    let now = b.now;
    let old = has_old(b, r, l);
    if x[place] == 0 {
        if old {
            return Change::Deleted;
        }
        return Change::Omitted;
    }
    if !old {
        return Change::Sent;
    }
    if is_ivs(want) {
        if b.follow {
            return Change::Omitted;
        }
        return Change::Sent;
    }
    let u = old_length(b, r, l);
    let k = lines::length_of(want, now);
    if same_list(&r[from..from + u], &x[from..from + k]) {
        return Change::Omitted;
    }
    Change::Sent
}

// The old value of a field that has one.
fn old_value(b: Basis, r: &[u64], l: Line, base: u64) -> u64
    requires place_in_bounds { l.place + 2 ≤ length r.now }
    requires want_value { l.want ≡ Want.One }
    ensures { result ≡ first base (old_values b.delta r.now b.was l) }
{
    let from = l.place + 1;
    if has_old(b, r, l) {
        return r[from];
    }
    base
}

// Words of eight bytes each, the highest first.
fn put_wide(ws: &[u64], out: &mut [u8], at: usize) -> usize
    requires { at + 8 * length ws.now ≤ length out.old }
    ensures { Wrote out.old at (wide_bytes ws.now) out.new result }
{
    let mut p = at;
    for w in ws {
        p = boxes::put::put_u64(out, p, *w);
    }
    p
}

// The number that the one value of a field is sent as.
fn number_of(
    form: Form,
    c: Coding,
    b: Basis,
    r: &[u64],
    x: &[u64],
    l: Line,
    base: u64,
) -> Option<u64>
    requires place_in_bounds { l.place + 2 ≤ length r.now }
    requires place_in_bounds_2 { l.place + 2 ≤ length x.now }
    requires want_value { l.want ≡ Want.One }
    ensures { result ≡ code_of (rows form) c (first base (old_values b.delta r.now b.was l))
        (get_or x.now (l.place + 1) 0) }
{
    let from = l.place + 1;
    wire::zigzag::code(form, c, old_value(b, r, l, base), x[from])
}

// What a field that is sent as numbers takes, one or a list of k: any field but the IVs.
fn coded_size(
    form: Form,
    c: Coding,
    b: Basis,
    r: &[u64],
    x: &[u64],
    l: Line,
    k: usize,
    base: u64,
) -> Option<usize>
    requires chunk_line { ChunkLine l }
    requires measured { Measured b.was r.now }
    requires k_in_bounds { (l.place + 1 + k ≤ length x.now) × (length x.now ≡ set_len) }
    requires k_le_subsamples_most { k ≤ subsamples_most }
    ensures { WeighedAs (rows form) (coded_item (rows form) c b r.now x.now l k base)
        line_most result }
{
    let from = l.place + 1;
    if l.room == 1 {
        let z = number_of(form, c, b, r, x, l, base);
        return tuples::number_size(form, true, l.id, z);
    }
    let u = old_length(b, r, l);
    tuples::run_size(form, c, l.id, &x[from..from + k], &r[from..from + u], base)
}

// A field that is sent.
fn sent_size(form: Form, t: Track, b: Basis, r: &[u64], x: &[u64], l: Line) -> Option<usize>
    requires based { Based t b r.now x.now }
    requires chunk_line { ChunkLine l }
    requires l_value { stands t b.delta r.now x.now l ≡ true }
    ensures { WeighedAs (rows form) (sent_items t b.delta r.now x.now l (rows form))
        line_most result }
{
    let want = l.want;
    let absent = l.absent;
    let now = b.now;
    let k = lines::length_of(want, now);
    let c = field_coding(b.delta, absent);
    let base = absent_value(t, absent);
    if is_ivs(want) {
        return Some(tuples::body_size(form, l.id, 8 * k));
    }
    coded_size(form, c, b, r, x, l, k, base)
}

// The tuple of the IVs.
fn put_ivs(form: Form, id: u64, ws: &[u64], out: &mut [u8], at: usize) -> usize
    requires ws_len_bound { length ws.now ≤ subsamples_most }
    requires ws_in_bounds { at + length (encode (rows form) id ++ encode (rows form) (8 * length ws.now) ++ wide_bytes ws.now)
        ≤ length out.old }
    ensures { Wrote out.old at
        (encode (rows form) id ++ encode (rows form) (8 * length ws.now) ++ wide_bytes ws.now)
        out.new result }
{
    let p = tuples::put_head(form, id, 8 * ws.len(), out, at);
    put_wide(ws, out, p)
}

// The tuple of a list of k numbers.
fn put_list(
    form: Form,
    c: Coding,
    b: Basis,
    r: &[u64],
    x: &[u64],
    l: Line,
    k: usize,
    base: u64,
    bytes: usize,
    out: &mut [u8],
    at: usize,
) -> usize
    requires chunk_line { ChunkLine l }
    requires measured { Measured b.was r.now }
    requires k_in_bounds { (l.place + 1 + k ≤ length x.now) × (length x.now ≡ set_len) }
    requires k_le_subsamples_most { k ≤ subsamples_most }
    requires base_value { is_some (list_item (rows form) c b r.now x.now l k base) ≡ true }
    requires bytes_value { bytes ≡ length (bytes_of (rows form) (list_item (rows form) c b r.now x.now l k base)) }
    requires room_for { RoomFor (rows form) (list_item (rows form) c b r.now x.now l k base) out.old at }
    ensures { WroteItems (rows form) (list_item (rows form) c b r.now x.now l k base)
        out.old at out.new result }
{
    let from = l.place + 1;
    let u = old_length(b, r, l);
    tuples::put_run(
        form,
        c,
        l.id,
        bytes,
        &x[from..from + k],
        &r[from..from + u],
        base,
        out,
        at,
    )
}

// The tuple of one number or of a list of k.
fn put_coded(
    form: Form,
    c: Coding,
    b: Basis,
    r: &[u64],
    x: &[u64],
    l: Line,
    k: usize,
    base: u64,
    bytes: usize,
    out: &mut [u8],
    at: usize,
) -> usize
    requires chunk_line { ChunkLine l }
    requires measured { Measured b.was r.now }
    requires k_in_bounds { (l.place + 1 + k ≤ length x.now) × (length x.now ≡ set_len) }
    requires k_le_subsamples_most { k ≤ subsamples_most }
    requires base_value { is_some (coded_item (rows form) c b r.now x.now l k base) ≡ true }
    requires bytes_value { bytes ≡ length (bytes_of (rows form) (coded_item (rows form) c b r.now x.now l k base)) }
    requires room_for { RoomFor (rows form) (coded_item (rows form) c b r.now x.now l k base) out.old at }
    ensures { WroteItems (rows form) (coded_item (rows form) c b r.now x.now l k base)
        out.old at out.new result }
{
    if l.room == 1 {
        let z = number_of(form, c, b, r, x, l, base);
        return tuples::put_number(form, true, l.id, z, out, at);
    }
    put_list(form, c, b, r, x, l, k, base, bytes, out, at)
}

fn put_sent(
    form: Form,
    t: Track,
    b: Basis,
    r: &[u64],
    x: &[u64],
    l: Line,
    bytes: usize,
    out: &mut [u8],
    at: usize,
) -> usize
    requires based { Based t b r.now x.now }
    requires chunk_line { ChunkLine l }
    requires l_value { stands t b.delta r.now x.now l ≡ true }
    requires form_value { is_some (sent_items t b.delta r.now x.now l (rows form)) ≡ true }
    requires bytes_value { bytes ≡ length (bytes_of (rows form) (sent_items t b.delta r.now x.now l (rows form))) }
    requires room_for { RoomFor (rows form) (sent_items t b.delta r.now x.now l (rows form)) out.old at }
    ensures { WroteItems (rows form) (sent_items t b.delta r.now x.now l (rows form))
        out.old at out.new result }
{
    let want = l.want;
    let absent = l.absent;
    let now = b.now;
    let from = l.place + 1;
    let k = lines::length_of(want, now);
    let c = field_coding(b.delta, absent);
    let base = absent_value(t, absent);
    if is_ivs(want) {
        return put_ivs(form, l.id, &x[from..from + k], out, at);
    }
    put_coded(form, c, b, r, x, l, k, base, bytes, out, at)
}

// The bytes of one field's tuple; none of one that is omitted or deleted. Most fields don't stand in a chunk, and for those the place of their
// mark is enough: deleted or not, they have no tuple.
pub fn line_size(form: Form, t: Track, b: Basis, r: &[u64], x: &[u64], i: usize) -> Option<usize>
    requires based { Based t b r.now x.now }
    requires i_lt_chunk_lines { i < chunk_lines }
    ensures { WeighedAs (rows form) (field_at (rows form) t b.delta b.follow r.now x.now i)
        line_most result }
{
    let place = lines::place_at(i);
    if x[place] == 0 {
        return Some(0);
    }
    let l = lines::line_at(i);
    let change = change_of(b, r, x, l);
    match change {
        Change::Omitted | Change::Deleted => Some(0),
        Change::Sent => sent_size(form, t, b, r, x, l),
    }
}

// The same tuple written, whose bytes were weighed: a field without any isn't sent, and one with some is.
pub fn put_line(
    form: Form,
    t: Track,
    b: Basis,
    r: &[u64],
    x: &[u64],
    i: usize,
    bytes: usize,
    out: &mut [u8],
    at: usize,
) -> usize
    requires based { Based t b r.now x.now }
    requires i_lt_chunk_lines { i < chunk_lines }
    requires i_value { is_some (field_at (rows form) t b.delta b.follow r.now x.now i) ≡ true }
    requires bytes_value { bytes ≡ length (bytes_of (rows form) (field_at (rows form) t b.delta b.follow r.now x.now i)) }
    requires room_for { RoomFor (rows form) (field_at (rows form) t b.delta b.follow r.now x.now i)
        out.old at }
    ensures { WroteItems (rows form) (field_at (rows form) t b.delta b.follow r.now x.now i)
        out.old at out.new result }
{
    if bytes == 0 {
        return at;
    }
    put_sent(form, t, b, r, x, lines::line_at(i), bytes, out, at)
}
