// `saiz` and `saio`: the length of each entry of the `senc`, and where the first stands.
// Letters: `c` a chunk's bytes, `b` a box of the chunk, `i` which one, counted from 0.
ghost use Rattle.std.specs.Prelude.{◌≡◌, true, ◌+◌, ◌≤◌, ◌<◌, ◌^◌};
ghost use Rattle.cmaf_read_shape.specs.Parts.{Inside};
ghost use Rattle.cmaf_read_senc.specs.Entries.{senc_head};
ghost use Rattle.cmaf_read_senc.specs.Sizes.{saiz_ok, saiz_count, info_size, saio_ok, leads_to};

use crate::entries;
use byte_parts::Part;
use cmaf_read_tree::numbers;

// ---- saiz

// Version 0, flags 0; a byte for each sample exactly where the default is 0.
pub fn saiz_ok(c: &[u8], b: Part) -> bool
    requires { Inside c.now b }
    ensures { result ≡ saiz_ok c.now b }
{
    if b.len < 17 {
        return b.len == 0;
    }
    let bare = numbers::u32_at(c, b.at + 8) == 0;
    let count = numbers::u32_at(c, b.at + 13);
    if numbers::u8_at(c, b.at + 12) == 0 {
        return bare & (b.len as u64 == 17 + count);
    }
    bare & (b.len == 17)
}

// How many samples the `saiz` counts.
pub fn saiz_count(c: &[u8], b: Part) -> u64
    requires { Inside c.now b }
    ensures { (result ≡ saiz_count c.now b) × (result < 2 ^ 32) }
{
    if b.len < 17 {
        return 0;
    }
    numbers::u32_at(c, b.at + 13)
}

// What the `saiz` says of a sample.
pub fn info_size(c: &[u8], b: Part, i: usize) -> u64
    requires inside { Inside c.now b }
    requires b_value { (saiz_ok c.now b ≡ true) × (i < saiz_count c.now b) }
    ensures { (result ≡ info_size c.now b i) × (result < 2 ^ 8) }
{
    let default = numbers::u8_at(c, b.at + 12);
    if default != 0 {
        return default;
    }
    numbers::u8_at(c, b.at + 17 + i)
}

// ---- saio

// Version 0, flags 0, and as many offsets as it counts.
pub fn saio_ok(c: &[u8], b: Part) -> bool
    requires { Inside c.now b }
    ensures { result ≡ saio_ok c.now b }
{
    if b.len < 16 {
        return b.len == 0;
    }
    let count = numbers::u32_at(c, b.at + 12);
    (numbers::u32_at(c, b.at + 8) == 0) & (b.len as u64 == 16 + 4 * count)
}

// Whether its one offset leads from the start of the `moof` to the first entry of the `senc`.
pub fn leads_to(c: &[u8], b: Part, moof: Part, senc: Part) -> bool
    requires { Inside c.now b × Inside c.now senc × (moof.at ≤ senc.at) }
    ensures { result ≡ leads_to c.now b moof (senc.at + senc_head) }
{
    if b.len != 20 {
        return false;
    }
    numbers::u32_at(c, b.at + 16) == (senc.at + entries::HEAD - moof.at) as u64
}
