// The varints of a list: how many fill its bytes.
// Letters: `s` bytes that are read.
ghost use Rattle.std.specs.Prelude.{◌≡◌, ◌&&◌, ◌+◌, ◌≤◌, ◌<◌, leb, ltb, length, get_or};
ghost use Rattle.std.proofs.Math.Seq.{slice};
ghost use Rattle.wire.specs.Form.{rows, ones};
ghost use Rattle.locmaf_read_block.specs.Numbers.{all_ones, count_at};

use wire::form::Form;

// Whether the byte at a place is a varint by itself.
fn one_at(form: Form, s: &[u8], p: usize) -> bool
    requires { p < length s.now }
    ensures { result ≡ ltb (get_or s.now p 0) (ones (rows form)) }
{
    wire::varint::wide(s[p]) < wire::form::ones(form)
}

// Whether each of four bytes is.
fn four_at(form: Form, s: &[u8], p: usize) -> bool
    requires { p + 4 ≤ length s.now }
    ensures { result ≡ all_ones (rows form) (slice p (p + 4) s.now) }
{
    one_at(form, s, p)
        & (one_at(form, s, p + 1) & (one_at(form, s, p + 2) & one_at(form, s, p + 3)))
}

// Whether each of eight bytes is.
fn eight_at(form: Form, s: &[u8], p: usize) -> bool
    requires { p + 8 ≤ length s.now }
    ensures { result ≡ all_ones (rows form) (slice p (p + 8) s.now) }
{
    four_at(form, s, p) & four_at(form, s, p + 4)
}

// Whether the bytes are eight or more, and each is a varint by itself. They are asked eight at a time, so the last eight may overlap those before.
fn all_ones(form: Form, s: &[u8], at: usize, end: usize) -> bool
    requires { (at < end) × (end ≤ length s.now) }
    ensures { result ≡ (leb (at + 8) end && all_ones (rows form) (slice at end s.now)) }
{
    if end - at < 8 {
        return false;
    }
    let last = end - 8;
    let mut p = at;
    while p < last {
        if !eight_at(form, s, p) {
            return false;
        }
        p += 8;
    }
    eight_at(form, s, last)
}

// How many varints fill the bytes from the place at to the place end. A run of varints of one byte has as many as it has bytes.
pub fn count(form: Form, s: &[u8], at: usize, end: usize) -> Option<usize>
    ensures { result ≡ count_at (rows form) s.now at end }
{
    if s.len() < end {
        return None;
    }
    if end <= at {
        return Some(0);
    }
    if all_ones(form, s, at, end) {
        return Some(end - at);
    }
    let mut n = 0;
    let mut p = at;
    while p < end {
        let (_, next) = wire::varint::read(form, s, p, end)?;
        p = next;
        n += 1;
    }
    Some(n)
}
