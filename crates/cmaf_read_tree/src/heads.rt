// The head of a box: its size and its type.
// Letters: `b` bytes.
ghost use Rattle.std.specs.Prelude.{◌≡◌, ◌+◌, ◌≤◌, IfSome, length, drop};
ghost use Rattle.cmaf_read_tree.specs.Whole.{container};
ghost use Rattle.cmaf_read_tree.specs.Heads.{head_of};

use crate::numbers;
use boxes::kinds;

// The first box of the list that starts at the place.
pub fn head_at(b: &[u8], at: usize) -> Option<(usize, u64)>
    requires { at ≤ length b.now }
    ensures head { result ≡ head_of (drop at b.now) }
    ensures room { IfSome result (λ h. (8 ≤ h.0) × (at + h.0 ≤ length b.now)) }
{
    let left = b.len() - at;
    if left < 8 {
        return None;
    }
    let size = numbers::u32_at(b, at) as usize;
    if size < 8 {
        return None;
    }
    if left < size {
        return None;
    }
    Some((size, numbers::u32_at(b, at + 4)))
}

// Whether a list of boxes stands inside a box of this type.
pub fn is_container(kind: u64) -> bool
    ensures { result ≡ container kind }
{
    (kind == kinds::MOOF) | (kind == kinds::TRAF)
}
