// The number in the `mfhd` of a chunk, which counts the objects that a receiver accepted; and two chunks compared but for it.
// Letters: `a` bytes, `b` bytes.
#![tactic(auto)]

ghost use Rattle.std.specs.Prelude.{◌≡◌, true, ◌<◌, ◌^◌};
ghost use Rattle.cmaf_read_shape.specs.Parts.{Inside};
ghost use Rattle.mfhd_numbers.specs.Sequence.{mfhd_of, number_of, value_of, less_by, SameBut, SameAround};

use byte_parts::Part;
use cmaf_read_shape::{inner, top};
use cmaf_read_tree::numbers;

// Two chunks: whether they are the same but for the numbers in their `mfhd`, and by how much the second one's is less.
#[derive(Clone, Copy)]
pub struct Compared {
    pub same: bool,
    pub less: u64,
}

const TWO_32: u64 = 4294967296;

// The `mfhd` of a chunk, by the sizes and types of its boxes; a part of no bytes where none stands.
fn mfhd_of(c: &[u8]) -> Part
    ensures { (result ≡ mfhd_of c.now) × Inside c.now result }
{
    let t = top::top_of(c);
    let moof = t.moof;
    let f = inner::inner_of(c, moof);
    f.mfhd
}

// The four bytes of its number, behind size, type, version and flags; no bytes where there is none.
fn number_of(c: &[u8]) -> Part
    ensures { (result ≡ number_of c.now) × Inside c.now result }
{
    let mfhd = mfhd_of(c);
    if mfhd.len < 16 {
        return Part { at: 0, len: 0 };
    }
    Part {
        at: mfhd.at + 12,
        len: 4,
    }
}

fn value(c: &[u8], number: Part) -> u64
    requires { (number ≡ number_of c.now) × Inside c.now number }
    ensures { (result ≡ value_of c.now) × (result < 2 ^ 32) }
{
    if number.len < 4 {
        return 0;
    }
    numbers::u32_at(c, number.at)
}

// Whether two chunks are the same before two parts of them, and behind them.
fn same_around(a: &[u8], p: Part, b: &[u8], q: Part) -> bool
    requires { Inside a.now p × Inside b.now q }
    ensures { (result ≡ true → SameAround a.now p b.now q)
        × (SameAround a.now p b.now q → result ≡ true) }
{
    let to = p.at + p.len;
    let second_to = q.at + q.len;
    let before = a[..p.at] == b[..q.at];
    let behind = a[to..] == b[second_to..];
    before & behind
}

// Two chunks with fronts of that length. What stands before the number and what stands behind it is compared, which is to compare both with 0 in its place.
pub fn compare(front: u64, a: &[u8], b: &[u8]) -> Compared
    ensures same_but { (result.same ≡ true → SameBut front a.now b.now)
        × (SameBut front a.now b.now → result.same ≡ true) }
    ensures less_value { result.less ≡ less_by a.now b.now }
{
    let p = number_of(a);
    let q = number_of(b);
    let to = p.at + p.len;
    let stand = (p.len == 4) & (q.len == 4) & (p.at == q.at) & (to as u64 <= front);
    Compared {
        same: stand & same_around(a, p, b, q),
        less: (value(a, p) + TWO_32 - value(b, q)) % TWO_32,
    }
}
