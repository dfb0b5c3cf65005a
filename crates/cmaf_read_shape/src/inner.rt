// The boxes inside the `moof`.
// Letters: `c` a chunk's bytes, `f` the boxes inside the `moof`.
ghost use Rattle.std.specs.Prelude.{◌≡◌, ◌≤◌, ◌<◌, ◌^◌, length};
ghost use Rattle.cmaf_read_shape.specs.Parts.{end_of, Inside};
ghost use Rattle.cmaf_read_shape.specs.Inner.{pick_of, last_of, traf_of, inner_of, three_or_none, inner_ok};

use crate::parts::{Any, after, any_at, end_inside, end_of, first_in};
use boxes::kinds;
use byte_parts::Part;

// The boxes inside the `moof`, and where the last one that was found inside the `traf` ends.
#[derive(Clone, Copy)]
pub struct Inner {
    pub mfhd: Part,
    pub traf: Part,
    pub tfhd: Part,
    pub tfdt: Part,
    pub trun: Part,
    pub senc: Part,
    pub saiz: Part,
    pub saio: Part,
    pub end: usize,
}

// The three boxes after the `trun`, and where the last box that was found there ends.
#[derive(Clone, Copy)]
struct Last {
    senc: Part,
    saiz: Part,
    saio: Part,
    end: usize,
}

// The one of three boxes that has the type.
fn pick(kind: u64, a: Any, b: Any, d: Any) -> Part
    ensures { result ≡ pick_of kind a b d }
{
    if a.kind == kind {
        return Part {
            at: a.at,
            len: a.len,
        };
    }
    if b.kind == kind {
        return Part {
            at: b.at,
            len: b.len,
        };
    }
    if d.kind == kind {
        return Part {
            at: d.at,
            len: d.len,
        };
    }
    Part { at: a.at, len: 0 }
}

// Up to three boxes from the place on, of which each of `senc`, `saiz` and `saio` may be one.
fn last_of(c: &[u8], at: usize, end: usize) -> Last
    requires { (at ≤ end) × (end ≤ length c.now) }
    ensures { result ≡ last_of c.now at end }
{
    let a = any_at(c, at, end);
    let b = any_at(c, a.at + a.len, end);
    let d = any_at(c, b.at + b.len, end);
    Last {
        senc: pick(kinds::SENC, a, b, d),
        saiz: pick(kinds::SAIZ, a, b, d),
        saio: pick(kinds::SAIO, a, b, d),
        end: d.at + d.len,
    }
}

// Inside the `traf`: `tfhd`, `tfdt`, `trun`, and those three.
fn traf_of(c: &[u8], mfhd: Part, traf: Part) -> Inner
    requires { Inside c.now traf }
    ensures { result ≡ traf_of c.now mfhd traf }
{
    let end = end_inside(traf);
    let tfhd = first_in(c, traf, kinds::TFHD);
    let tfdt = after(c, tfhd, end, kinds::TFDT);
    let trun = after(c, tfdt, end, kinds::TRUN);
    let last = last_of(c, end_of(trun), end);
    let senc = last.senc;
    let saiz = last.saiz;
    let saio = last.saio;
    Inner {
        mfhd,
        traf,
        tfhd,
        tfdt,
        trun,
        senc,
        saiz,
        saio,
        end: last.end,
    }
}

// `mfhd`, then the `traf`.
pub fn inner_of(c: &[u8], moof: Part) -> Inner
    requires { Inside c.now moof }
    ensures { result ≡ inner_of c.now moof }
{
    let end = end_inside(moof);
    let mfhd = first_in(c, moof, kinds::MFHD);
    let traf = after(c, mfhd, end, kinds::TRAF);
    traf_of(c, mfhd, traf)
}

// Whether all three of `senc`, `saiz` and `saio` stand, or nothing after the `trun`. Three boxes among which each of three types is found are
// these three.
fn three_or_none(f: Inner) -> bool
    requires { (end_of f.trun < 2 ^ 64) × (end_of f.traf < 2 ^ 64) }
    ensures { result ≡ three_or_none f }
{
    let trun = f.trun;
    let traf = f.traf;
    let senc = f.senc;
    let saiz = f.saiz;
    let saio = f.saio;
    let three = (senc.len != 0) & ((saiz.len != 0) & (saio.len != 0));
    (end_of(trun) == end_of(traf)) | (three & (f.end == end_of(traf)))
}

// Whether the boxes inside the `moof` are those of a chunk.
pub fn inner_ok(moof: Part, f: Inner) -> bool
    requires { (end_of moof < 2 ^ 64) × (end_of f.trun < 2 ^ 64) × (end_of f.traf < 2 ^ 64) }
    ensures { result ≡ inner_ok moof f }
{
    let mfhd = f.mfhd;
    let traf = f.traf;
    let tfhd = f.tfhd;
    let tfdt = f.tfdt;
    let trun = f.trun;
    let stand = (mfhd.len != 0)
        & ((traf.len != 0) & ((tfhd.len != 0) & ((tfdt.len != 0) & (trun.len != 0))));
    stand & ((end_of(traf) == end_of(moof)) & three_or_none(f))
}
