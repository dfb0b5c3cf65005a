// Whether bytes are a whole list of boxes. The list check and the box check call each other, each time on fewer bytes. That both end says
// nothing of the stack: a header is 8 bytes, and nobody has tested the length yet, so the calls are counted, and past the budget a walk goes on.
// Letters: `b` bytes.
ghost use Rattle.std.specs.Prelude.{◌≡◌, ◌≤◌, length};
ghost use Rattle.cmaf_read_tree.specs.Whole.{whole, whole_box};

use crate::{heads, numbers, walk};

// The deepest nesting that is checked by calls. A chunk that is accepted has a `traf` in a `moof` and no more.
const BUDGET: usize = 8;

pub fn whole(b: &[u8]) -> bool
    ensures { result ≡ whole b.now }
{
    list_whole(b, BUDGET)
}

// Each box of the list is whole, and they fill it. A loop and not a call goes on to the next box, of which there may be as many as bytes allow.
#[cycle(box_whole_list_whole)]
fn list_whole(b: &[u8], budget: usize) -> bool
    ensures { result ≡ whole b.now }
{
    let mut at: usize = 0;
    while at < b.len() {
        let Some((size, _)) = heads::head_at(b, at) else {
            return false;
        };
        let kind = at + 4;
        let end = at + size;
        if !box_whole(&b[kind..end], budget) {
            return false;
        }
        at = end;
    }
    true
}

// A box past its size field, from its type on: a container is whole when the list inside it is, and any other box as it stands.
#[cycle(box_whole_list_whole)]
fn box_whole(b: &[u8], budget: usize) -> bool
    requires { 4 ≤ length b.now }
    ensures { result ≡ whole_box b.now }
{
    let kind = numbers::u32_at(b, 0);
    if !heads::is_container(kind) {
        return true;
    }
    if budget == 0 {
        return walk::walk_whole(&b[4..]);
    }
    list_whole(&b[4..], budget - 1)
}
