// One tuple: how many bytes it takes, and the same bytes written.
// Letters: `a` a weight, `b` another, `c` a number made for the wire, `n` how many.
ghost use Rattle.std.specs.Prelude.{◌≡◌, true, ◌++◌, ℕ, ◌+◌, ◌*◌, ◌≤◌, ◌<◌, length};
ghost use Rattle.std.specs.Option.{unwrap_or};
ghost use Rattle.laws.specs.Writes.{Wrote};
ghost use Rattle.wire.specs.Form.{rows};
ghost use Rattle.wire.specs.Varint.{encode, size_of};
ghost use Rattle.laws.specs.Options.{is_some};
ghost use Rattle.constants.specs.Ids.{id_count};
ghost use Rattle.constants.specs.Maxima.{subsamples_most, block_most};
ghost use Rattle.locmaf_write_tuples.specs.Items.{items_if, number_item, run_item, bytes_of, pair_most, weight_most, sum_of, Made, WeighedAs, RoomFor, WroteItems};

use wire::form::Form;
use wire::zigzag::Coding;

// A weight is what a part of an object takes: its bytes, if each of its numbers fits. Everything is weighed before anything is written, since one
// number too wide decides between a delta, a full object and a refusal.

// What has a number too wide has no weight.
const TOO_WIDE: Option<usize> = None;

// Two parts, neither of which is long.
pub fn both(a: Option<usize>, b: Option<usize>) -> Option<usize>
    requires { (unwrap_or a 0 ≤ weight_most) × (unwrap_or b 0 ≤ weight_most) }
    ensures { result ≡ sum_of a b }
{
    Some(a? + b?)
}

// ---- an even id: one number

// A tuple that may be left out, as its caller says.
pub fn number_size(form: Form, stands: bool, id: u64, c: Option<u64>) -> Option<usize>
    requires { (id < id_count) × Made (rows form) c }
    ensures { WeighedAs (rows form) (items_if stands (number_item id c)) pair_most result }
{
    if !stands {
        return Some(0);
    }
    let Some(z) = c else {
        return TOO_WIDE;
    };
    Some(wire::varint::size(form, id) + wire::varint::size(form, z))
}

pub fn put_number(
    form: Form,
    stands: bool,
    id: u64,
    c: Option<u64>,
    out: &mut [u8],
    at: usize,
) -> usize
    requires c_value { is_some (items_if stands (number_item id c)) ≡ true }
    requires room_for { RoomFor (rows form) (items_if stands (number_item id c)) out.old at }
    ensures { WroteItems (rows form) (items_if stands (number_item id c))
        out.old at out.new result }
{
    if !stands {
        return at;
    }
    let z = c.unwrap();
    let a = wire::varint::put(form, out, at, id);
    wire::varint::put(form, out, a, z)
}

// ---- an odd id: a length, and so many bytes

// The whole tuple of a body of n bytes.
pub fn body_size(form: Form, id: u64, n: usize) -> usize
    requires { n ≤ block_most }
    ensures { (result ≡ size_of (rows form) id + (size_of (rows form) n + n)) × (result ≤ pair_most + n) }
{
    wire::varint::size(form, id) + (wire::varint::size(form, n as u64) + n)
}

// What stands before a body of n bytes.
pub fn put_head(form: Form, id: u64, n: usize, out: &mut [u8], at: usize) -> usize
    requires { at + length (encode (rows form) id ++ encode (rows form) n) ≤ length out.old }
    ensures { Wrote out.old at (encode (rows form) id ++ encode (rows form) n) out.new result }
{
    let a = wire::varint::put(form, out, at, id);
    wire::varint::put(form, out, a, n as u64)
}

// A list of numbers: the new values, against the old ones, and `base` where there is none.
pub fn run_size(
    form: Form,
    coding: Coding,
    id: u64,
    new: &[u64],
    old: &[u64],
    base: u64,
) -> Option<usize>
    requires { (id < id_count) × (length new.now ≤ subsamples_most) }
    ensures { WeighedAs (rows form) (run_item (rows form) coding id base old.now new.now)
        (pair_most + 8 * length new.now) result }
{
    let Some(n) = runs::measure(form, coding, new, old, base) else {
        return TOO_WIDE;
    };
    Some(body_size(form, id, n))
}

// How many bytes a body has that takes m of them with its length before it.
fn body_in(form: Form, m: usize) -> usize
    requires { (n : ℕ) × (n ≤ block_most) × (m ≡ size_of (rows form) n + n) }
    ensures { (n : ℕ) → n ≤ block_most → m ≡ size_of (rows form) n + n → result ≡ n }
{
    let mut n = m - 1;
    while m < n + wire::varint::size(form, n as u64) {
        n -= 1;
    }
    n
}

// The same written. Its length stands before the numbers, and follows from the bytes of the whole tuple, which were weighed.
pub fn put_run(
    form: Form,
    coding: Coding,
    id: u64,
    bytes: usize,
    new: &[u64],
    old: &[u64],
    base: u64,
    out: &mut [u8],
    at: usize,
) -> usize
    requires id_lt_id_count { (id < id_count) × (length new.now ≤ subsamples_most) }
    requires value { is_some (run_item (rows form) coding id base old.now new.now) ≡ true }
    requires bytes_value { bytes ≡ length (bytes_of (rows form) (run_item (rows form) coding id base old.now new.now)) }
    requires room_for { RoomFor (rows form) (run_item (rows form) coding id base old.now new.now) out.old at }
    ensures { WroteItems (rows form) (run_item (rows form) coding id base old.now new.now)
        out.old at out.new result }
{
    let n = body_in(form, bytes - wire::varint::size(form, id));
    let a = put_head(form, id, n, out, at);
    runs::put(form, coding, new, old, base, out, a)
}
