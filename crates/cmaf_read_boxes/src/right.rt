// Order, versions, flags and lengths of the boxes of a chunk.
// Letters: `t` the track, `c` a chunk's bytes, `f` the boxes inside the `moof`.
ghost use Rattle.std.specs.Prelude.{◌≡◌, true, ◌&&◌, ◌≤◌, length};
ghost use Rattle.refusal.specs.Numbers.{number_of};
ghost use Rattle.cmaf_read_shape.specs.Parts.{Inside};
ghost use Rattle.cmaf_read_shape.specs.Top.{top_of, top_ok};
ghost use Rattle.cmaf_read_shape.specs.Inner.{inner_of, inner_ok};
ghost use Rattle.laws.specs.Gate.{gate};
ghost use Rattle.cmaf_read_tree.specs.Whole.{whole};
ghost use Rattle.cmaf_read_senc.specs.Sizes.{saiz_ok, saio_ok};
ghost use Rattle.cmaf_read_boxes.specs.Right.{outer_right, samples_right, PairsAs};

use cmaf_read_shape::inner::Inner;
use cmaf_read_shape::top::Top;
use cmaf_read_tree::whole;
use refusal::Refusal;
use track::Track;

// Versions, flags and lengths: of the boxes at the top.
fn outer_ok(c: &[u8], top: Top) -> bool
    requires { Inside c.now top.prft × (top.emsgs.at ≤ length c.now) }
    ensures { result ≡ outer_right c.now top }
{
    let styp = top.styp;
    let prft = top.prft;
    let emsgs = top.emsgs;
    cmaf_read_prelude::styp::styp_ok(styp)
        & (cmaf_read_prelude::prft::prft_ok(c, prft)
            & cmaf_read_prelude::emsg::emsgs_ok(c, emsgs.at, top.events))
}

// Of the boxes that say what samples there are.
fn samples_ok(c: &[u8], f: Inner) -> bool
    requires inside { Inside c.now f.mfhd × Inside c.now f.tfhd }
    requires inside_2 { Inside c.now f.tfdt × Inside c.now f.trun }
    ensures { result ≡ samples_right c.now f }
{
    let mfhd = f.mfhd;
    let tfhd = f.tfhd;
    let tfdt = f.tfdt;
    let trun = f.trun;
    (cmaf_read_moof::headers::mfhd_ok(c, mfhd) & cmaf_read_moof::defaults::tfhd_ok(c, tfhd))
        & (cmaf_read_moof::headers::tfdt_ok(c, tfdt) & cmaf_read_trun::rows::trun_ok(c, trun))
}

// Of the boxes that say how long the entries of the `senc` are and where they stand.
fn sizes_ok(c: &[u8], f: Inner) -> bool
    requires { Inside c.now f.saiz × Inside c.now f.saio }
    ensures { result ≡ (saiz_ok c.now f.saiz && saio_ok c.now f.saio) }
{
    let saiz = f.saiz;
    let saio = f.saio;
    cmaf_read_senc::sizes::saiz_ok(c, saiz) & cmaf_read_senc::sizes::saio_ok(c, saio)
}

// Whether the boxes stand that a chunk has, each where it must.
pub fn order_ok(c: &[u8], top: Top, f: Inner) -> bool
    requires { (top ≡ top_of c.now) × (f ≡ inner_of c.now top.moof) }
    ensures { result ≡ (top_ok c.now top && inner_ok top.moof f) }
{
    let moof = top.moof;
    cmaf_read_shape::top::top_ok(c, top) & cmaf_read_shape::inner::inner_ok(moof, f)
}

// Why a chunk is refused whose boxes don't: just that, if they make a tree; 5 comes before 6. Boxes that stand where they must always make one, so that it is
// looked at for no other chunk.
pub fn unordered(c: &[u8]) -> Refusal
    ensures { number_of result ≡ gate (whole c.now) 5 6 }
{
    if whole::whole(c) {
        return Refusal::WrongBox;
    }
    Refusal::BrokenTree
}

// How many subsamples the chunk has, if versions, flags and lengths of its boxes are right, which stand where they must. The entries of the `senc` are
// walked last, and once.
pub fn pairs_in(t: Track, c: &[u8], top: Top, f: Inner) -> Option<u64>
    requires top_value { (top ≡ top_of c.now) × (f ≡ inner_of c.now top.moof) }
    requires f_value { (top_ok c.now top && inner_ok top.moof f) ≡ true }
    ensures { PairsAs t c.now result }
{
    let senc = f.senc;
    if !(outer_ok(c, top) & (samples_ok(c, f) & sizes_ok(c, f))) {
        return None;
    }
    cmaf_read_senc::entries::senc_read(t, c, senc)
}
