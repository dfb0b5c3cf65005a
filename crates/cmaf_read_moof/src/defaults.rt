// `tfhd`.
// Letters: `c` a chunk's bytes, `b` a box of the chunk, `t` the track.
ghost use Rattle.std.specs.Prelude.{◌≡◌, true, ◌^◌, ◌≤◌, ◌<◌};
ghost use Rattle.cmaf_read_shape.specs.Parts.{Inside};
ghost use Rattle.cmaf_read_moof.specs.Defaults.{fields_in, tfhd_ok, is_field, field_of, defaults_of, Narrow};

use byte_parts::Part;
use cmaf_read_shape::words::bit;
use cmaf_read_tree::numbers;
use media::flags::SampleFlags;
use track::Track;

// What the samples have where the `trun` has no column for it: the `tfhd`'s, and where it has none either, the track's. So a field that the
// `tfhd` doesn't have can't differ from the track's.
#[derive(Clone, Copy)]
pub struct Defaults {
    pub track: u64,
    pub description: u64,
    pub duration: u64,
    pub size: u64,
    pub flags: u64,
}

// How many fields the flags 0x2, 0x8, 0x10 and 0x20 of a word bring, one each.
fn fields_in(word: u64) -> u64
    ensures { (result ≡ fields_in word) × (result ≤ 4) }
{
    bit(word, 0x2) + (bit(word, 0x8) + (bit(word, 0x10) + bit(word, 0x20)))
}

// Version 0, the flag 0x020000 and none but the four fields', and just the bytes of those.
pub fn tfhd_ok(c: &[u8], b: Part) -> bool
    requires { Inside c.now b }
    ensures { result ≡ tfhd_ok c.now b }
{
    if b.len < 16 {
        return false;
    }
    let word = numbers::u32_at(c, b.at + 8);
    let own = 0x2 * bit(word, 0x2)
        + (0x8 * bit(word, 0x8) + (0x10 * bit(word, 0x10) + 0x20 * bit(word, 0x20)));
    (word == 0x2_0000 + own) & (b.len as u64 == 16 + 4 * fields_in(word))
}

// The field of a flag, or another value where the flag isn't set. The fields stand in the order of their flags.
fn field_of(c: &[u8], b: Part, flag: u64, other: u64) -> u64
    requires inside { Inside c.now b }
    requires b_value { tfhd_ok c.now b ≡ true }
    requires flag_value { is_field flag ≡ true }
    requires other_bound { other < 2 ^ 32 }
    ensures { (result ≡ field_of c.now b flag other) × (result < 2 ^ 32) }
{
    let word = numbers::u32_at(c, b.at + 8);
    if bit(word, flag) == 0 {
        return other;
    }
    let before = fields_in(word % flag) as usize;
    numbers::u32_at(c, b.at + 16 + 4 * before)
}

pub fn defaults_of(t: Track, c: &[u8], b: Part) -> Defaults
    requires inside { Inside c.now b }
    requires b_value { tfhd_ok c.now b ≡ true }
    ensures { (result ≡ defaults_of t c.now b) × Narrow result }
{
    let own = SampleFlags::of_five(t.flags as u64);
    Defaults {
        track: numbers::u32_at(c, b.at + 12),
        description: field_of(c, b, 0x2, t.description as u64),
        duration: field_of(c, b, 0x8, t.duration as u64),
        size: field_of(c, b, 0x10, t.size as u64),
        flags: field_of(c, b, 0x20, own.0 as u64),
    }
}
