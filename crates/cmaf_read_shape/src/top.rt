// The boxes at the top. 01: "Order: `styp`? `prft`? `emsg`* `moof` `mdat`, nothing after."
// Letters: `c` a chunk's bytes.
ghost use Rattle.std.specs.Prelude.{◌≡◌, ◌≤◌, length};
ghost use Rattle.cmaf_read_shape.specs.Parts.{Inside};
ghost use Rattle.cmaf_read_shape.specs.Top.{emsgs_from, top_of, top_ok};

use crate::parts::{after, box_at, end_of};
use boxes::kinds;
use byte_parts::Part;

// The boxes at the top. The `emsg` boxes are one part, with how many they are.
#[derive(Clone, Copy)]
pub struct Top {
    pub styp: Part,
    pub prft: Part,
    pub emsgs: Part,
    pub events: usize,
    pub moof: Part,
    pub mdat: Part,
}

// A run of boxes of one type: the place after it, and how many.
#[derive(Clone, Copy)]
struct Row {
    end: usize,
    count: usize,
}

// The `emsg` boxes from the place on.
fn emsgs_from(c: &[u8], at: usize) -> Row
    requires { at ≤ length c.now }
    ensures { (result ≡ emsgs_from c.now at) × (at ≤ result.end) × (result.end ≤ length c.now) }
{
    let mut count = 0;
    let mut p = at;
    while p < c.len() {
        let b = box_at(c, p, c.len(), kinds::EMSG);
        if b.len == 0 {
            return Row { end: p, count };
        }
        p += b.len;
        count += 1;
    }
    Row { end: p, count }
}

// `styp`? `prft`? `emsg`* `moof` `mdat`.
pub fn top_of(c: &[u8]) -> Top
    ensures { result ≡ top_of c.now }
{
    let none = Part { at: 0, len: 0 };
    let styp = after(c, none, c.len(), kinds::STYP);
    let prft = after(c, styp, c.len(), kinds::PRFT);
    let at = end_of(prft);
    let row = emsgs_from(c, at);
    let emsgs = Part {
        at,
        len: row.end - at,
    };
    let moof = after(c, emsgs, c.len(), kinds::MOOF);
    let mdat = after(c, moof, c.len(), kinds::MDAT);
    Top {
        styp,
        prft,
        emsgs,
        events: row.count,
        moof,
        mdat,
    }
}

// Whether the boxes at the top are those of a chunk, with nothing after them.
pub fn top_ok(c: &[u8], top: Top) -> bool
    requires { Inside c.now top.mdat }
    ensures { result ≡ top_ok c.now top }
{
    let moof = top.moof;
    let mdat = top.mdat;
    (moof.len != 0) & ((mdat.len != 0) & (end_of(mdat) == c.len()))
}
