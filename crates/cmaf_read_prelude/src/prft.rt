// The `prft`: its version and length, and what it says.
// Letters: `c` a chunk's bytes, `b` a box of the chunk.
ghost use Rattle.std.specs.Prelude.{◌≡◌, true, ◌<◌};
ghost use Rattle.cmaf_read_shape.specs.Parts.{Inside};
ghost use Rattle.cmaf_read_prelude.specs.Prft.{prft_ok, media_time, prft_of, prft_track};

use byte_parts::Part;
use cmaf_read_tree::numbers;
use media::clocks::{NtpUnits, TrackTicks};
use prft_value::Prft;

// Version 0 with a media time of 32 bits, or version 1 with one of 64; any flags; or no box.
pub fn prft_ok(c: &[u8], b: Part) -> bool
    requires { Inside c.now b }
    ensures { result ≡ prft_ok c.now b }
{
    if b.len < 28 {
        return b.len == 0;
    }
    let version = numbers::u32_at(c, b.at + 8) / 0x100_0000;
    ((version == 0) & (b.len == 28)) | ((version == 1) & (b.len == 32))
}

// The media time of a box that stands.
fn media_time(c: &[u8], b: Part) -> TrackTicks
    requires inside { Inside c.now b }
    requires b_value { (prft_ok c.now b ≡ true) × (0 < b.len) }
    ensures { result.0 ≡ media_time c.now b }
{
    let version = numbers::u32_at(c, b.at + 8) / 0x100_0000;
    if version == 0 {
        return TrackTicks(numbers::u32_at(c, b.at + 24));
    }
    TrackTicks(numbers::u64_at(c, b.at + 24))
}

pub fn prft_of(c: &[u8], b: Part) -> Prft
    requires inside { Inside c.now b }
    requires b_value { prft_ok c.now b ≡ true }
    ensures { result ≡ prft_of c.now b }
{
    if b.len == 0 {
        return Prft::none();
    }
    let word = numbers::u32_at(c, b.at + 8);
    let ntp = NtpUnits(numbers::u64_at(c, b.at + 16));
    let media = media_time(c, b);
    Prft {
        stands: true,
        ntp,
        media,
        version: word / 0x100_0000,
        flags: word % 0x100_0000,
    }
}

// The track that the box names; ours where there is no box.
pub fn prft_track(c: &[u8], b: Part, ours: u64) -> u64
    requires inside { Inside c.now b }
    requires b_value { prft_ok c.now b ≡ true }
    ensures { result ≡ prft_track c.now b ours }
{
    if b.len == 0 {
        return ours;
    }
    numbers::u32_at(c, b.at + 12)
}
