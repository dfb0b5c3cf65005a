// A box where it is looked for. One that doesn't stand is a part of no bytes at that place, so that the next box is looked for there, and one
// test at the end tells whether all that must stand do.
// Letters: `p` a part of the bytes, `c` a chunk's bytes.
ghost use Rattle.std.specs.Prelude.{◌≡◌, ◌+◌, ◌≤◌, ◌<◌, ◌^◌, length};
ghost use Rattle.cmaf_read_shape.specs.Parts.{end_of, body_of, any_at, box_at, first_in};

use byte_parts::Part;
use cmaf_read_tree::heads;

// A box of any type; all zeros but its place where none stands.
#[derive(Clone, Copy)]
pub struct Any {
    pub kind: u64,
    pub at: usize,
    pub len: usize,
}

pub fn end_of(p: Part) -> usize
    requires { p.at + p.len < 2 ^ 64 }
    ensures { result ≡ end_of p }
{
    p.at + p.len
}

// What stands in a box after its head; nothing in a box that doesn't stand.
pub fn body(p: Part) -> Part
    requires { p.at + p.len < 2 ^ 64 }
    ensures { result ≡ body_of p }
{
    if p.len < 8 {
        return Part { at: p.at, len: 0 };
    }
    Part {
        at: p.at + 8,
        len: p.len - 8,
    }
}

// The box at the place, in a list that ends at another.
pub fn any_at(c: &[u8], at: usize, end: usize) -> Any
    requires { (at ≤ end) × (end ≤ length c.now) }
    ensures { result ≡ any_at c.now at end }
{
    let Some((len, kind)) = heads::head_at(&c[..end], at) else {
        return Any {
            kind: 0,
            at,
            len: 0,
        };
    };
    Any { kind, at, len }
}

// The same where it has the type; of no bytes where it has another.
pub fn box_at(c: &[u8], at: usize, end: usize, kind: u64) -> Part
    requires { (at ≤ end) × (end ≤ length c.now) × (0 < kind) }
    ensures { result ≡ box_at c.now at end kind }
{
    let b = any_at(c, at, end);
    if b.kind == kind {
        return Part { at, len: b.len };
    }
    Part { at, len: 0 }
}

// The box after another one in a list that ends at a place, where it has the type.
pub fn after(c: &[u8], p: Part, end: usize, kind: u64) -> Part
    requires { (end_of p ≤ end) × (end ≤ length c.now) × (0 < kind) }
    ensures { (result ≡ box_at c.now (end_of p) end kind) × (end_of result ≤ end) }
{
    box_at(c, end_of(p), end, kind)
}

// Where what stands in a box after its head ends.
pub fn end_inside(p: Part) -> usize
    requires { p.at + p.len < 2 ^ 64 }
    ensures { (result ≡ end_of (body_of p)) × (result ≤ end_of p) }
{
    let list = body(p);
    end_of(list)
}

// The first box inside another one, where it has the type.
pub fn first_in(c: &[u8], p: Part, kind: u64) -> Part
    requires { (end_of p ≤ length c.now) × (0 < kind) }
    ensures { (result ≡ first_in c.now p kind) × (end_of result ≤ end_of (body_of p)) }
{
    let list = body(p);
    box_at(c, list.at, end_of(list), kind)
}
