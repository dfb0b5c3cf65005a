// The front of a chunk: all boxes before the payload, from the first byte of the output on.
// Letters: `t` the track, `w` the words of a set, `o` an object's bytes, `k` how many.
ghost use Rattle.std.specs.Prelude.{◌≡◌, List, ℕ, ◌≤◌, length};
ghost use Rattle.laws.specs.Writes.{Wrote};
ghost use Rattle.event_value.specs.Events.{EventsFit};
ghost use Rattle.cmaf_write_front.specs.Front.{front_of};
ghost use Rattle.cmaf_write_front.specs.Writable.{Writable, Weighable};

use boxes::{kinds, put};
use cmaf_write_emsg::emsg;
use cmaf_write_moof::moof;
use cmaf_write_prelude::outer;
use prft_value::Prft;
use track::Track;

// The length of the front, whatever the sequence number, the payload and the bytes are that the events' words point into.
pub fn front_length(
    t: Track,
    w: &[u64],
    prft: Prft,
    events: &[u64],
    k: usize,
    brands: &[u8],
) -> usize
    requires { Weighable t w.now events.now k brands.now }
    ensures { (sequence payload : ℕ) (o : List ℕ) → EventsFit o events.now k
        → result ≡ length (front_of t sequence w.now payload prft o events.now k
        brands.now) }
{
    outer::styp_length(brands)
        + (outer::prft_length(prft)
            + (emsg::emsgs_length(events, k) + (moof::moof_length(t, w) + 8)))
}

// The front, which is as long as was found before: the `moof` has what the other boxes leave of that.
pub fn put_front(
    t: Track,
    sequence: u64,
    w: &[u64],
    payload: u64,
    prft: Prft,
    o: &[u8],
    events: &[u64],
    k: usize,
    brands: &[u8],
    need: usize,
    out: &mut [u8],
) -> usize
    requires writable { Writable t w.now payload prft o.now events.now k brands.now }
    requires need_value { need ≡ length (front_of t sequence w.now payload prft o.now events.now k brands.now) }
    requires need_in_bounds { need ≤ length out.old }
    ensures { Wrote out.old 0 (front_of t sequence w.now payload prft
        o.now events.now k brands.now) out.new result }
{
    let a = outer::put_styp(brands, out, 0);
    let b = outer::put_prft(t, prft, out, a);
    let c = emsg::put_emsgs(o, events, k, out, b);
    let d = moof::put_moof(t, sequence, w, payload, need - c - 8, out, c);
    let mdat: [u64; 2] = [8 + payload, kinds::MDAT];
    put::put_words(out, d, &mdat)
}
