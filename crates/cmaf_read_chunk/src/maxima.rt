// Counts and lengths held to their maxima, whatever else is wrong with them.
// Letters: `c` a chunk's bytes, `f` the boxes inside the `moof`.
ghost use Rattle.std.specs.Prelude.{◌≡◌, true, ◌≤◌};
ghost use Rattle.cmaf_read_shape.specs.Parts.{Inside};
ghost use Rattle.cmaf_read_shape.specs.Top.{top_of};
ghost use Rattle.cmaf_read_shape.specs.Inner.{inner_of};
ghost use Rattle.cmaf_read_trun.specs.Rows.{trun_ok};
ghost use Rattle.cmaf_read_senc.specs.Entries.{subsamples};
ghost use Rattle.track.specs.declared.Track.{Track};
ghost use Rattle.cmaf_read_chunk.specs.Accepted.{samples_few, counts_ok};

use cmaf_read_prelude::styp::brands_in;
use cmaf_read_shape::inner::Inner;
use cmaf_read_shape::top::Top;
use cmaf_read_tree::numbers;
use constants::maxima;

// Each of the three boxes that count samples counts few enough.
fn samples_ok(c: &[u8], f: Inner) -> bool
    requires inside { Inside c.now f.trun × (16 ≤ f.trun.len) }
    requires inside_2 { Inside c.now f.senc × Inside c.now f.saiz }
    ensures { result ≡ samples_few c.now f }
{
    let trun = f.trun;
    let senc = f.senc;
    let saiz = f.saiz;
    (numbers::u32_at(c, trun.at + 12) <= maxima::SAMPLES as u64)
        & ((cmaf_read_senc::entries::senc_count(c, senc) <= maxima::SAMPLES as u64)
            & (cmaf_read_senc::sizes::saiz_count(c, saiz) <= maxima::SAMPLES as u64))
}

// Every maximum but that of the events' list bytes. How many subsamples there are was found when the `senc` was read.
pub fn counts_ok(c: &[u8], top: Top, f: Inner, pairs: u64) -> bool
    requires top_value { (top ≡ top_of c.now) × (f ≡ inner_of c.now top.moof) }
    requires trun_value { trun_ok c.now f.trun ≡ true }
    ensures { (t : Track) → pairs ≡ subsamples t c.now f.senc
        → result ≡ counts_ok t c.now }
{
    let styp = top.styp;
    let mdat = top.mdat;
    let payload = cmaf_read_shape::parts::body(mdat);
    samples_ok(c, f)
        & ((pairs <= maxima::SUBSAMPLES as u64)
            & ((brands_in(styp) <= maxima::BRANDS)
                & ((top.events <= maxima::EVENTS) & (payload.len <= maxima::PAYLOAD as usize))))
}
