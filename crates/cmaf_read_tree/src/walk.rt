// The check of a list without a call for a level of nesting: whatever the depth, the stack is the same, and no box is looked at more than twice.
// Letters: `b` bytes.
ghost use Rattle.std.specs.Prelude.{◌≡◌};
ghost use Rattle.cmaf_read_tree.specs.Whole.{whole};
ghost use Rattle.cmaf_read_tree.specs.Fills.{fills};

use crate::heads;

// The boxes of the list fill it, whatever stands inside them.
fn boxes_fill(b: &[u8]) -> bool
    ensures { result ≡ fills b.now }
{
    let mut at: usize = 0;
    while at < b.len() {
        let Some((size, _)) = heads::head_at(b, at) else {
            return false;
        };
        at += size;
    }
    true
}

// Over a box, or into it where it is a container. The way back need not be kept: a container that its boxes fill ends where the last of them
// does, so the boxes inside it and those after it are one list.
pub fn walk_whole(b: &[u8]) -> bool
    ensures { result ≡ whole b.now }
{
    let mut at: usize = 0;
    while at < b.len() {
        let Some((size, kind)) = heads::head_at(b, at) else {
            return false;
        };
        let end = at + size;
        if !heads::is_container(kind) {
            at = end;
            continue;
        }
        let inside = at + 8;
        if !boxes_fill(&b[inside..end]) {
            return false;
        }
        at = inside;
    }
    true
}
