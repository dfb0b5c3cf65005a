// `senc`: whether its entries fill it, how many they are, and what an entry has. The track's IV size cuts the entries, whatever the track.
// Letters: `t` the track, `c` a chunk's bytes, `b` a box of the chunk, `e` the entries of the `senc`.
ghost use Rattle.std.specs.Prelude.{◌≡◌, true, is_some, ◌+◌, ◌≤◌, ◌<◌, ◌^◌, length};
ghost use Rattle.std.specs.Option.{unwrap_or};
ghost use Rattle.std.proofs.Math.Seq.{slice};
ghost use Rattle.cmaf_read_shape.specs.Parts.{Inside};
ghost use Rattle.cmaf_read_senc.specs.Entries.{senc_head, entries_of, pairs_at, map_length, entries_in, senc_filled, senc_ok, senc_count, subsamples};

use byte_parts::Part;
use cmaf_read_shape::parts;
use cmaf_read_tree::numbers;
use track::Track;

// The entries of a `senc`: whether they have subsamples, how many they are, the bytes of an IV, and where the first stands.
#[derive(Clone, Copy)]
pub struct Entries {
    pub map: bool,
    pub count: u64,
    pub iv: usize,
    pub at: usize,
}

// The bytes of a `senc` before its first entry: its head, version and flags, and the count.
pub const HEAD: usize = 16;

// ---- an entry

pub fn entries_of(t: Track, c: &[u8], b: Part) -> Entries
    requires { Inside c.now b × (senc_head ≤ b.len) }
    ensures { (result ≡ entries_of t c.now b) × ((result.count < 2 ^ 32) × (result.iv < 2 ^ 8)) }
{
    Entries {
        map: numbers::u32_at(c, b.at + 8) == 2,
        count: numbers::u32_at(c, b.at + 12),
        iv: t.iv_size as usize,
        at: b.at + HEAD,
    }
}

// The subsamples of the entry at the place.
pub fn pairs_at(c: &[u8], e: Entries, at: usize) -> usize
    requires { at + (e.iv + map_length e 0) ≤ length c.now }
    ensures { (result ≡ pairs_at c.now e at) × (result < 2 ^ 16) }
{
    if !e.map {
        return 0;
    }
    numbers::u16_at(c, at + e.iv) as usize
}

// The bytes of an entry after its IV, if it has so many subsamples.
pub fn map_length(e: Entries, pairs: usize) -> usize
    requires { pairs < 2 ^ 16 }
    ensures { result ≡ map_length e pairs }
{
    if !e.map {
        return 0;
    }
    2 + 6 * pairs
}

// ---- all entries

// Entries with subsamples, one after another up to the place `end`. Each has two bytes or more, so the walk ends with the box, whatever the
// count.
fn walk_entries(c: &[u8], e: Entries, end: usize) -> Option<u64>
    requires map_value { (e.map ≡ true) × (e.iv < 2 ^ 8) }
    requires at_le_end { (e.at ≤ end) × (end ≤ length c.now) }
    ensures { result ≡ entries_in e e.count (slice e.at end c.now) }
{
    let mut sum = 0;
    let mut p = e.at;
    let mut left = e.count;
    while 0 < left {
        if end - p < e.iv + 2 {
            return None;
        }
        let k = pairs_at(c, e, p);
        let len = e.iv + map_length(e, k);
        if end - p < len {
            return None;
        }
        sum += k as u64;
        p += len;
        left -= 1;
    }
    if p < end {
        return None;
    }
    Some(sum)
}

// Version 0, flags 0 or 2, and entries that end with the box. Without subsamples all are as long as an IV, and the product is exact.
fn senc_filled(t: Track, c: &[u8], b: Part) -> Option<u64>
    requires { Inside c.now b × (senc_head ≤ b.len) }
    ensures { result ≡ senc_filled t c.now b }
{
    let e = entries_of(t, c, b);
    if e.map {
        return walk_entries(c, e, parts::end_of(b));
    }
    if numbers::u32_at(c, b.at + 8) != 0 {
        return None;
    }
    if b.len as u64 != HEAD as u64 + e.iv as u64 * e.count {
        return None;
    }
    Some(0)
}

// ---- senc

// How many subsamples it has, or that it is wrong; none where it doesn't stand.
pub fn senc_read(t: Track, c: &[u8], b: Part) -> Option<u64>
    requires { Inside c.now b }
    ensures { (is_some result ≡ senc_ok t c.now b) × (unwrap_or result 0 ≡ subsamples t c.now b) }
{
    if b.len < HEAD {
        if b.len == 0 {
            return Some(0);
        }
        return None;
    }
    senc_filled(t, c, b)
}

// How many samples the `senc` counts.
pub fn senc_count(c: &[u8], b: Part) -> u64
    requires { Inside c.now b }
    ensures { (result ≡ senc_count c.now b) × (result < 2 ^ 32) }
{
    if b.len < HEAD {
        return 0;
    }
    numbers::u32_at(c, b.at + 12)
}
