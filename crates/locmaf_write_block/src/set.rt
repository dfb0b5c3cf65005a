// The set of moof fields of a chunk in an object: every line of the table but that of id 16, with BMDT and the sample count among them by their ids.
// Letters: `t` the track, `r` the words of the reference's set, `x` the words of the new set, `b` what is written against what, `e` the BMDT that is expected.
ghost use Rattle.std.specs.Prelude.{◌≡◌, true, List, ℕ, ◌+◌, ◌-◌, ◌*◌, ◌≤◌, ◌<◌, length};
ghost use Rattle.wire.specs.Form.{rows};
ghost use Rattle.laws.specs.Options.{is_some};
ghost use Rattle.track.specs.declared.Track.{Track};
ghost use Rattle.field_table.specs.Lines.{lines, set_len};
ghost use Rattle.effective.specs.Expected.{next_time, expected_by};
ghost use Rattle.locmaf_write_tuples.specs.Items.{pair_most, WeighedAs, RoomFor, WroteItems};
ghost use Rattle.locmaf_write_block.specs.Changes.{chunk_lines, basis_of, Writable, Based, line_most};
ghost use Rattle.locmaf_write_block.specs.Fields.{before_bmdt, before_count, between, bmdt_stands, bmdt_if, count_stands, count_items, field_items, kept_len, KeptEach, KeptFields, set_most};

use crate::cells;
use crate::cells::Basis;
use constants::ids;
use effective::expected::Expected;
use field_rules::rules::coding_for;
use field_set::lawful;
use field_table::lines::Measure;
use field_table::{lines, order};
use locmaf_write_tuples::tuples;
use track::Track;
use wire::form::Form;
use wire::zigzag::Coding;

// The lines before BMDT, whose id is below that of the subsample counts, and those before the sample count, below that of the protected bytes.
const BEFORE_BMDT: usize = order::SUBSAMPLES;

const BEFORE_COUNT: usize = order::PROTECTED;

// The lines that a chunk's set can have: all but the last, id 16's, since the track's parameter cuts a chunk's IVs.
const CHUNK_LINES: usize = lines::LINES - 1;

// What is kept of weighing for writing: the bytes of each line's tuple, and behind them those of all lines together and those of the deletions.
const ALL: usize = CHUNK_LINES;

pub const GONE: usize = CHUNK_LINES + 1;

pub const KEPT: usize = CHUNK_LINES + 2;

// What the set x is written against: in a delta the reference r, in a full object nothing.
pub fn basis_of(t: Track, delta: bool, follow: bool, r: &[u64], x: &[u64]) -> Basis
    requires { Writable t delta r.now x.now }
    ensures { result ≡ basis_of t delta follow r.now x.now }
{
    let now = lawful::measure(t, x);
    if delta {
        return Basis {
            delta: true,
            follow,
            was: lawful::measure(t, r),
            now,
        };
    }
    Basis {
        delta: false,
        follow,
        was: Measure {
            count: 0,
            ivs: 0,
            sum: 0,
        },
        now,
    }
}

// ---- BMDT and the sample count

// BMDT goes by its own rule: it is left out where it is the one that is expected behind the reference, and not where it is the reference's.
fn bmdt_stands(delta: bool, e: Expected, x: &[u64]) -> bool
    requires { length x.now ≡ set_len }
    ensures { (t : Track) (r : List ℕ) → e ≡ expected_by (next_time t r)
        → result ≡ bmdt_stands t delta r x.now }
{
    if !delta {
        return true;
    }
    !effective::expected::follows(e, x[lines::BMDT])
}

fn count_stands(delta: bool, r: &[u64], x: &[u64]) -> bool
    requires { (length r.now ≡ set_len) × (length x.now ≡ set_len) }
    ensures { result ≡ count_stands delta r.now x.now }
{
    !delta | (x[lines::COUNT] != r[lines::COUNT])
}

// BMDT's tuple, which is absolute in a delta too. A number that isn't sent isn't coded either.
fn bmdt_size(form: Form, stands: bool, x: &[u64]) -> Option<usize>
    requires { length x.now ≡ set_len }
    ensures { WeighedAs (rows form) (bmdt_if (rows form) stands x.now) pair_most result }
{
    if !stands {
        return Some(0);
    }
    let c = wire::zigzag::code(form, Coding::Plain, 0, x[lines::BMDT]);
    tuples::number_size(form, true, ids::BMDT, c)
}

fn put_bmdt(form: Form, stands: bool, x: &[u64], out: &mut [u8], at: usize) -> usize
    requires x_len { length x.now ≡ set_len }
    requires x_value { is_some (bmdt_if (rows form) stands x.now) ≡ true }
    requires room_for { RoomFor (rows form) (bmdt_if (rows form) stands x.now) out.old at }
    ensures { WroteItems (rows form) (bmdt_if (rows form) stands x.now)
        out.old at out.new result }
{
    if !stands {
        return at;
    }
    let c = wire::zigzag::code(form, Coding::Plain, 0, x[lines::BMDT]);
    tuples::put_number(form, true, ids::BMDT, c, out, at)
}

// The sample count's, the same way.
fn count_size(form: Form, delta: bool, r: &[u64], x: &[u64]) -> Option<usize>
    requires { (length r.now ≡ set_len) × (length x.now ≡ set_len) }
    ensures { WeighedAs (rows form) (count_items (rows form) delta r.now x.now)
        pair_most result }
{
    if !count_stands(delta, r, x) {
        return Some(0);
    }
    let c = wire::zigzag::code(form, coding_for(delta), r[lines::COUNT], x[lines::COUNT]);
    tuples::number_size(form, true, ids::COUNT, c)
}

fn put_count(form: Form, delta: bool, r: &[u64], x: &[u64], out: &mut [u8], at: usize) -> usize
    requires r_len { (length r.now ≡ set_len) × (length x.now ≡ set_len) }
    requires x_value { is_some (count_items (rows form) delta r.now x.now) ≡ true }
    requires room_for { RoomFor (rows form) (count_items (rows form) delta r.now x.now) out.old at }
    ensures { WroteItems (rows form) (count_items (rows form) delta r.now x.now)
        out.old at out.new result }
{
    if !count_stands(delta, r, x) {
        return at;
    }
    let c = wire::zigzag::code(form, coding_for(delta), r[lines::COUNT], x[lines::COUNT]);
    tuples::put_number(form, true, ids::COUNT, c, out, at)
}

// ---- the lines

// All lines that a chunk can have. The bytes of each are kept.
fn lines_size(
    form: Form,
    t: Track,
    b: Basis,
    r: &[u64],
    x: &[u64],
    kept: &mut [usize],
) -> Option<usize>
    requires based { Based t b r.now x.now }
    requires kept_len { length kept.old ≡ kept_len }
    ensures { WeighedAs (rows form)
        (between (rows form) t b.delta b.follow r.now x.now 0 chunk_lines) (line_most * chunk_lines) result
        × KeptEach (rows form) t b.delta b.follow r.now x.now kept.new }
{
    let mut sum = Some(0);
    for i in 0..CHUNK_LINES {
        let w = cells::line_size(form, t, b, r, x, i);
        kept[i] = w.unwrap_or(0);
        sum = tuples::both(sum, w);
    }
    sum
}

// The lines from a number up to another.
fn put_lines(
    form: Form,
    t: Track,
    b: Basis,
    r: &[u64],
    x: &[u64],
    from: usize,
    to: usize,
    kept: &[usize],
    out: &mut [u8],
    at: usize,
) -> usize
    requires based { Based t b r.now x.now }
    requires from_le_to { (from ≤ to) × (to ≤ chunk_lines) }
    requires kept_each { KeptEach (rows form) t b.delta b.follow r.now x.now kept.now }
    requires to_value { is_some (between (rows form) t b.delta b.follow r.now x.now from to) ≡ true }
    requires room_for { RoomFor (rows form) (between (rows form) t b.delta b.follow r.now x.now from to)
        out.old at }
    ensures { WroteItems (rows form) (between (rows form) t b.delta b.follow r.now x.now from to)
        out.old at out.new result }
{
    let mut p = at;
    for i in from..to {
        p = cells::put_line(form, t, b, r, x, i, kept[i], out, p);
    }
    p
}

// The lines between BMDT and the sample count seldom stand: one test of their marks passes over them all.
fn put_middle(
    form: Form,
    t: Track,
    b: Basis,
    r: &[u64],
    x: &[u64],
    kept: &[usize],
    out: &mut [u8],
    at: usize,
) -> usize
    requires based { Based t b r.now x.now }
    requires kept_each { KeptEach (rows form) t b.delta b.follow r.now x.now kept.now }
    requires before_count_value { is_some (between (rows form) t b.delta b.follow r.now x.now before_bmdt before_count) ≡ true }
    requires room_for { RoomFor (rows form) (between (rows form) t b.delta b.follow r.now x.now before_bmdt before_count)
        out.old at }
    ensures { WroteItems (rows form)
        (between (rows form) t b.delta b.follow r.now x.now before_bmdt before_count)
        out.old at out.new result }
{
    if (x[lines::SUBSAMPLES] == 0) & (x[lines::FIRST_FLAGS] == 0) & (x[lines::CLEAR] == 0) {
        return at;
    }
    put_lines(form, t, b, r, x, BEFORE_BMDT, BEFORE_COUNT, kept, out, at)
}

// The line after the sample count, id 15's, seldom stands either.
fn put_high(
    form: Form,
    t: Track,
    b: Basis,
    r: &[u64],
    x: &[u64],
    kept: &[usize],
    out: &mut [u8],
    at: usize,
) -> usize
    requires based { Based t b r.now x.now }
    requires kept_each { KeptEach (rows form) t b.delta b.follow r.now x.now kept.now }
    requires chunk_lines_value { is_some (between (rows form) t b.delta b.follow r.now x.now before_count chunk_lines) ≡ true }
    requires room_for { RoomFor (rows form) (between (rows form) t b.delta b.follow r.now x.now before_count chunk_lines)
        out.old at }
    ensures { WroteItems (rows form)
        (between (rows form) t b.delta b.follow r.now x.now before_count chunk_lines)
        out.old at out.new result }
{
    if x[lines::PROTECTED] == 0 {
        return at;
    }
    put_lines(form, t, b, r, x, BEFORE_COUNT, CHUNK_LINES, kept, out, at)
}

// ---- ids 1 to 15

// A sum is the same in any order, so the lines are weighed in one walk, whatever stands between them in the object.
pub fn set_size(
    form: Form,
    t: Track,
    b: Basis,
    e: Expected,
    r: &[u64],
    x: &[u64],
    kept: &mut [usize],
) -> Option<usize>
    requires based { Based t b r.now x.now × (e ≡ expected_by (next_time t r.now)) }
    requires kept_len { length kept.old ≡ kept_len }
    ensures { WeighedAs (rows form) (field_items (rows form) t b.delta b.follow r.now x.now)
        set_most result
        × KeptFields (rows form) t b.delta b.follow r.now x.now kept.new }
{
    let fields = lines_size(form, t, b, r, x, &mut *kept);
    kept[ALL] = fields.unwrap_or(0);
    let bmdt = bmdt_size(form, bmdt_stands(b.delta, e, x), x);
    let count = count_size(form, b.delta, r, x);
    let numbers = tuples::both(bmdt, count);
    tuples::both(fields, numbers)
}

// The same written. Where no field is sent, the lines before BMDT, which are most, are passed over at once.
pub fn put_set(
    form: Form,
    t: Track,
    b: Basis,
    e: Expected,
    r: &[u64],
    x: &[u64],
    kept: &[usize],
    out: &mut [u8],
    at: usize,
) -> usize
    requires based { Based t b r.now x.now × (e ≡ expected_by (next_time t r.now)) }
    requires kept_fields { KeptFields (rows form) t b.delta b.follow r.now x.now kept.now }
    requires x_value { is_some (field_items (rows form) t b.delta b.follow r.now x.now) ≡ true }
    requires room_for { RoomFor (rows form) (field_items (rows form) t b.delta b.follow r.now x.now) out.old at }
    ensures { WroteItems (rows form) (field_items (rows form) t b.delta b.follow r.now x.now)
        out.old at out.new result }
{
    let p = if kept[ALL] == 0 {
        at
    } else {
        put_lines(form, t, b, r, x, 0, BEFORE_BMDT, kept, out, at)
    };
    let q = put_bmdt(form, bmdt_stands(b.delta, e, x), x, out, p);
    let u = put_middle(form, t, b, r, x, kept, out, q);
    let v = put_count(form, b.delta, r, x, out, u);
    put_high(form, t, b, r, x, kept, out, v)
}
