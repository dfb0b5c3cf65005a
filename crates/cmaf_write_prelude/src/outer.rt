// Two of the boxes before the moof: `styp` and `prft`.
// Letters: `t` the track, `p` the `prft`.
ghost use Rattle.std.specs.Prelude.{◌≡◌, ◌+◌, ◌≤◌, length};
ghost use Rattle.laws.specs.Writes.{Wrote};
ghost use Rattle.track.specs.declared.Track.{Track};
ghost use Rattle.cmaf_write_prelude.specs.Prelude.{styp_box, media_bytes, prft_box};
ghost use Rattle.constants.specs.Maxima.{brand_bytes_most};
ghost use Rattle.prft_value.specs.Prft.{Headed};
ghost use Rattle.cmaf_write_prelude.specs.Branded.{Branded};

use boxes::{kinds, put};
use media::clocks::TrackTicks;
use prft_value::Prft;
use track::Track;

// ---- styp

pub fn styp_length(brands: &[u8]) -> usize
    requires { Branded brands.now }
    ensures { (result ≡ length (styp_box brands.now)) × (result ≤ 12 + brand_bytes_most) }
{
    if brands.len() == 0 {
        return 0;
    }
    12 + brands.len()
}

// The major brand, the minor version 0, and the compatible brands.
pub fn put_styp(brands: &[u8], out: &mut [u8], at: usize) -> usize
    requires branded { Branded brands.now }
    requires brands_in_bounds { at + length (styp_box brands.now) ≤ length out.old }
    ensures { Wrote out.old at (styp_box brands.now) out.new result }
{
    if brands.len() == 0 {
        return at;
    }
    let head: [u64; 2] = [12 + brands.len() as u64, kinds::STYP];
    let a = put::put_words(out, at, &head);
    let b = put::put_bytes(out, a, &brands[..4]);
    let c = put::put_u32(out, b, 0);
    put::put_bytes(out, c, &brands[4..])
}

// ---- prft

// The length of the `prft`, whatever the track is.
pub fn prft_length(p: Prft) -> usize
    ensures { ((t : Track) → result ≡ length (prft_box t p)) × (result ≤ 32) }
{
    if !p.stands {
        return 0;
    }
    if p.version == 0 { 28 } else { 32 }
}

// The media time, which has 32 bits in version 0.
fn put_media(version: u64, media: TrackTicks, out: &mut [u8], at: usize) -> usize
    requires { at + length (media_bytes version media.0) ≤ length out.old }
    ensures { Wrote out.old at (media_bytes version media.0) out.new result }
{
    if version == 0 {
        return put::put_u32(out, at, media.0);
    }
    put::put_u64(out, at, media.0)
}

pub fn put_prft(t: Track, p: Prft, out: &mut [u8], at: usize) -> usize
    requires headed { Headed p }
    requires p_in_bounds { at + length (prft_box t p) ≤ length out.old }
    ensures { Wrote out.old at (prft_box t p) out.new result }
{
    if !p.stands {
        return at;
    }
    let head: [u64; 6] = [
        prft_length(p) as u64,
        kinds::PRFT,
        p.version * 0x100_0000 + p.flags,
        t.id as u64,
        p.ntp.0 / 0x1_0000_0000,
        p.ntp.0,
    ];
    let a = put::put_words(out, at, &head);
    let media = p.media;
    put_media(p.version, media, out, a)
}
