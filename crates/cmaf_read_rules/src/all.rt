// Every rule.
// Letters: `t` the track, `c` a chunk's bytes, `d` the defaults of the `tfhd`, `f` the boxes inside the `moof`.
ghost use Rattle.std.specs.Prelude.{◌≡◌, true, [], ◌*◌, ◌≤◌, length};
ghost use Rattle.event_value.specs.Events.{event_words, events_of};
ghost use Rattle.cmaf_read_shape.specs.Parts.{Inside};
ghost use Rattle.cmaf_read_prelude.specs.Prft.{prft_ok};
ghost use Rattle.cmaf_read_moof.specs.Defaults.{defaults_of, Narrow};
ghost use Rattle.cmaf_read_rules.specs.Rules.{clocks_ok, outer_ok, rules_ok, Right};

use crate::{protection, samples};
use cmaf_read_moof::defaults::Defaults;
use cmaf_read_shape::inner::Inner;
use cmaf_read_shape::top::Top;
use cmaf_read_trun::rows;
use event_value::{TIMESCALE, WORDS};
use track::Track;

// No event has the timescale 0.
fn clocks_ok(events: &[u64], k: usize) -> bool
    requires { event_words * k ≤ length events.now }
    ensures { result ≡ clocks_ok (events_of [] events.now k) }
{
    let mut ok = true;
    for i in 0..k {
        ok = ok & (events[WORDS * i + TIMESCALE] != 0);
    }
    ok
}

fn outer_ok(t: Track, c: &[u8], top: Top, d: Defaults) -> bool
    requires inside { Inside c.now top.styp × Inside c.now top.prft }
    requires prft_value { prft_ok c.now top.prft ≡ true }
    ensures { result ≡ outer_ok t c.now top d }
{
    let styp = top.styp;
    let prft = top.prft;
    let ours = t.id as u64;
    (cmaf_read_prelude::styp::minor_version(c, styp) == 0)
        & ((cmaf_read_prelude::prft::prft_track(c, prft, ours) == ours) & (d.track == ours))
}

// Whether every rule holds; the words of the chunk's events are lent.
pub fn rules_ok(t: Track, c: &[u8], top: Top, f: Inner, d: Defaults, events: &[u64]) -> bool
    requires right { Right t c.now top f }
    requires events_in_bounds { event_words * top.events ≤ length events.now }
    requires d_value { (d ≡ defaults_of t c.now f.tfhd) × Narrow d }
    ensures { result
        ≡ rules_ok t c.now top f (events_of c.now events.now top.events) }
{
    let trun = f.trun;
    let senc = f.senc;
    let moof = top.moof;
    let mdat = top.mdat;
    let r = rows::run_of(c, trun);
    let outer = outer_ok(t, c, top, d) & clocks_ok(events, top.events);
    let flags = rows::offset_ok(c, trun, moof)
        & (samples::flags_ok(c, trun, d.flags, r) & samples::offsets_ok(c, r));
    let sizes = samples::sizes_ok(c, mdat, d.size, r);
    // without a `senc`, the track isn't cenc or there are no samples
    if senc.len == 0 {
        return outer & (flags & (sizes & ((t.protection as u64 != track::CENC) | (r.count == 0))));
    }
    outer & (flags & (sizes & protection::protected_ok(t, c, top, f, r, d.size)))
}
