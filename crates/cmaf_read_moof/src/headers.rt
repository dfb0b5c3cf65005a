// `mfhd` and `tfdt`.
// Letters: `c` a chunk's bytes, `b` a box of the chunk.
ghost use Rattle.std.specs.Prelude.{◌≡◌, true};
ghost use Rattle.cmaf_read_shape.specs.Parts.{Inside};
ghost use Rattle.cmaf_read_moof.specs.Headers.{mfhd_ok, tfdt_ok, bmdt_of};

use byte_parts::Part;
use cmaf_read_tree::numbers;
use media::clocks::TrackTicks;

// Version 0, flags 0, any sequence number.
pub fn mfhd_ok(c: &[u8], b: Part) -> bool
    requires { Inside c.now b }
    ensures { result ≡ mfhd_ok c.now b }
{
    if b.len != 16 {
        return false;
    }
    numbers::u32_at(c, b.at + 8) == 0
}

// Version 0 with 32 bits or version 1 with 64, flags 0.
pub fn tfdt_ok(c: &[u8], b: Part) -> bool
    requires { Inside c.now b }
    ensures { result ≡ tfdt_ok c.now b }
{
    if b.len < 16 {
        return false;
    }
    let word = numbers::u32_at(c, b.at + 8);
    ((b.len == 16) & (word == 0)) | ((b.len == 20) & (word == 0x100_0000))
}

pub fn bmdt_of(c: &[u8], b: Part) -> TrackTicks
    requires inside { Inside c.now b }
    requires b_value { tfdt_ok c.now b ≡ true }
    ensures { result.0 ≡ bmdt_of c.now b }
{
    if numbers::u32_at(c, b.at + 8) == 0 {
        return TrackTicks(numbers::u32_at(c, b.at + 12));
    }
    TrackTicks(numbers::u64_at(c, b.at + 12))
}
