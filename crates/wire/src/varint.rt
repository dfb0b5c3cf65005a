// One varint: read at a place, measured, written at a place.
// Letters: `s` bytes that are read, `v` a number.
ghost use Rattle.std.specs.Prelude.{◌≡◌, ◌+◌, ◌-◌, ◌*◌, ◌/◌, ◌^◌, ◌≤◌, ◌<◌, length};
ghost use Rattle.std.proofs.Math.Seq.{slice};
ghost use Rattle.std.proofs.lemmas.List.Edits.{sets};
ghost use Rattle.laws.specs.Bytes.{be, de};
ghost use Rattle.laws.specs.Writes.{Wrote};
ghost use Rattle.wire.specs.Form.{rows, ones, twos};
ghost use Rattle.wire.specs.Varint.{encode, size_of, read_at, Begins};

use crate::form::Form;

// A byte as a number.
pub fn wide(b: u8) -> u64
    ensures { result ≡ b }
{
    b as u64
}

// The number that acc and then the bytes from the place from up to the place to spell.
fn join(s: &[u8], from: usize, to: usize, acc: u64) -> u64
    requires from_le_to { (from ≤ to) × (to ≤ length s.now) }
    requires from_bound { (acc + 1) * 256 ^ (to - from) ≤ 2 ^ 64 }
    ensures { result ≡ acc * 256 ^ (to - from) + de (slice from to s.now) }
{
    let mut v = acc;
    for i in from..to {
        v = v * 256 + wide(s[i]);
    }
    v
}

// The varint of two bytes, of which b is the first.
fn two_at(form: Form, s: &[u8], at: usize, end: usize, b: u64) -> Option<(u64, usize)>
    requires begins { Begins s.now at end b }
    requires form_bound { (ones (rows form) ≤ b) × (b < ones (rows form) + twos (rows form)) }
    ensures { result ≡ read_at (rows form) s.now at end }
{
    if end <= at + 1 {
        return None;
    }
    let above = b - crate::form::ones(form);
    let low = wide(s[at + 1]);
    Some((above * 256 + low, at + 2))
}

// The varint of which b is the first byte, by the row that this is in.
fn more_at(form: Form, s: &[u8], at: usize, end: usize, b: u64) -> Option<(u64, usize)>
    requires { Begins s.now at end b }
    ensures { result ≡ read_at (rows form) s.now at end }
{
    let r = crate::form::by_first(form, b)?;
    let n = r.tail;
    let from = at + 1;
    if end - from < n {
        return None;
    }
    let v = join(s, from, from + n, b - r.mark);
    Some((v, from + n))
}

// The varint from the place at, that ends before the place end: any bytes and any places are taken. Most have one byte and nearly all others two,
// so these are asked for before the table.
pub fn read(form: Form, s: &[u8], at: usize, end: usize) -> Option<(u64, usize)>
    ensures { result ≡ read_at (rows form) s.now at end }
{
    if s.len() < end {
        return None;
    }
    if end <= at {
        return None;
    }
    let b = wide(s[at]);
    let ones = crate::form::ones(form);
    if b < ones {
        return Some((b, at + 1));
    }
    if b < ones + crate::form::twos(form) {
        return two_at(form, s, at, end, b);
    }
    more_at(form, s, at, end, b)
}

// The bytes that the shortest varint of v takes; a number too wide counts as the longest.
pub fn size(form: Form, v: u64) -> usize
    ensures { result ≡ size_of (rows form) v }
{
    let Some(r) = crate::form::by_value(form, v) else {
        return crate::form::most(form);
    };
    r.tail + 1
}

// Stores the n low bytes of v from the place at on, the highest first, and gives what is left of v.
fn put_low(out: &mut [u8], at: usize, n: usize, v: u64) -> u64
    requires { at + n ≤ length out.old }
    ensures { (out.new ≡ sets out.old at (be n v)) × (result ≡ v / 256 ^ n) }
{
    let mut x = v;
    for j in (0..n).rev() {
        out[at + j] = (x % 256) as u8;
        x /= 256;
    }
    x
}

// Stores the varint of v, which has two bytes.
fn put_two(form: Form, out: &mut [u8], at: usize, v: u64) -> usize
    requires form_bound { (ones (rows form) ≤ v) × (v < twos (rows form) * 256) }
    requires v_in_bounds { at + length (encode (rows form) v) ≤ length out.old }
    ensures { Wrote out.old at (encode (rows form) v) out.new result }
{
    out[at + 1] = (v % 256) as u8;
    out[at] = (crate::form::ones(form) + v / 256) as u8;
    at + 2
}

// Stores the shortest varint of v by its row. Nothing is stored of a number too wide.
fn put_more(form: Form, out: &mut [u8], at: usize, v: u64) -> usize
    requires { at + length (encode (rows form) v) ≤ length out.old }
    ensures { Wrote out.old at (encode (rows form) v) out.new result }
{
    let Some(r) = crate::form::by_value(form, v) else {
        return at;
    };
    let x = put_low(&mut *out, at + 1, r.tail, v);
    out[at] = (r.mark + x) as u8;
    at + 1 + r.tail
}

// Stores the shortest varint of v at the place at, and gives the place after it. Nothing is stored of a number too wide.
pub fn put(form: Form, out: &mut [u8], at: usize, v: u64) -> usize
    requires { at + length (encode (rows form) v) ≤ length out.old }
    ensures { Wrote out.old at (encode (rows form) v) out.new result }
{
    if v < crate::form::ones(form) {
        out[at] = v as u8;
        return at + 1;
    }
    if v < crate::form::twos(form) * 256 {
        return put_two(form, out, at, v);
    }
    put_more(form, out, at, v)
}
