// The rules on protected samples. Counts keep their maxima by now, so no loop is longer than 64 samples and 256 subsamples.
// Letters: `t` the track, `c` a chunk's bytes, `e` the entries of the `senc`, `f` the boxes inside the `moof`, `r` the rows of the `trun`.
ghost use Rattle.std.specs.Prelude.{◌≡◌, true, ◌+◌, ◌*◌, ◌≤◌, ◌<◌, ◌^◌, length};
ghost use Rattle.constants.specs.Maxima.{subsamples_most};
ghost use Rattle.cmaf_read_shape.specs.Parts.{Inside};
ghost use Rattle.cmaf_read_trun.specs.Columns.{FewRows};
ghost use Rattle.cmaf_read_senc.specs.Entries.{pairs_at, length_at, FewPairs};
ghost use Rattle.cmaf_read_senc.specs.Sizes.{saiz_ok, saiz_count};
ghost use Rattle.cmaf_read_rules.specs.Rules.{pairs_sum, entry_ok, entries_ok, counts_ok, protected_ok, Right};
ghost use Rattle.cmaf_read_rules.specs.Rules as R;

use byte_parts::Part;
use cmaf_read_senc::entries::Entries;
use cmaf_read_senc::{entries, sizes};
use cmaf_read_shape::inner::Inner;
use cmaf_read_shape::top::Top;
use cmaf_read_tree::numbers;
use cmaf_read_trun::rows;
use cmaf_read_trun::rows::Run;
use track::Track;

// Clear and protected bytes of k subsamples that stand from the place on.
fn pairs_sum(c: &[u8], at: usize, k: usize) -> u64
    requires { (at + 6 * k ≤ length c.now) × (k ≤ subsamples_most) }
    ensures { result ≡ pairs_sum c.now k at }
{
    let mut sum = 0;
    let mut p = at;
    let end = at + 6 * k;
    while p < end {
        sum += numbers::u16_at(c, p) + numbers::u32_at(c, p + 2);
        p += 6;
    }
    sum
}

// Whether the entry at the place, with its k subsamples, adds up to the sample's size, where it has a map at all.
fn entry_ok(c: &[u8], e: Entries, at: usize, k: usize, size: u64) -> bool
    requires k_value { (k ≡ pairs_at c.now e at) × (k ≤ subsamples_most) }
    requires at_in_bounds { at + length_at c.now e at ≤ length c.now }
    ensures { result ≡ entry_ok c.now e at size }
{
    if !e.map {
        return true;
    }
    pairs_sum(c, at + e.iv + 2, k) == size
}

// Each entry's subsamples add up to its sample's size, and the `saiz` has its length.
fn entries_ok(c: &[u8], saiz: Part, e: Entries, r: Run, default: u64) -> bool
    requires few_rows { FewRows c.now r × (default < 2 ^ 32) }
    requires few_pairs { FewPairs c.now e r.count subsamples_most }
    requires inside { Inside c.now saiz × (saiz_ok c.now saiz ≡ true) × (r.count ≤ saiz_count c.now saiz) }
    ensures { result ≡ entries_ok c.now e saiz r default r.count 0 e.at }
{
    let n = r.count as usize;
    let mut ok = true;
    let mut p = e.at;
    for i in 0..n {
        let k = entries::pairs_at(c, e, p);
        let len = e.iv + entries::map_length(e, k);
        let size = rows::size_at(c, r, default, i);
        ok = ok & (entry_ok(c, e, p, k, size) & (sizes::info_size(c, saiz, i) == len as u64));
        p += len;
    }
    ok
}

// A `senc` stands on a protected track with samples, counts them as the `saiz` does, and has IVs or subsamples.
fn counts_ok(t: Track, c: &[u8], saiz: Part, e: Entries, r: Run) -> bool
    requires { Inside c.now saiz }
    ensures { result ≡ counts_ok t c.now saiz e r }
{
    ((t.protection as u64 != track::NONE) & (r.count != 0))
        & (((e.count == r.count) & (sizes::saiz_count(c, saiz) == r.count)) & ((e.iv != 0) | e.map))
}

// The rules on a `senc` that stands. The counts are asked before the entries: by them the entries are there.
pub fn protected_ok(t: Track, c: &[u8], top: Top, f: Inner, r: Run, default: u64) -> bool
    requires right { Right t c.now top f × (0 < f.senc.len) }
    requires r_value { (r ≡ R.run t c.now top f) × (default ≡ (R.defaults t c.now top f).size) × (default < 2 ^ 32) }
    ensures { result ≡ protected_ok t c.now top f }
{
    let moof = top.moof;
    let senc = f.senc;
    let saiz = f.saiz;
    let saio = f.saio;
    let e = entries::entries_of(t, c, senc);
    if !counts_ok(t, c, saiz, e, r) {
        return false;
    }
    sizes::leads_to(c, saio, moof, senc) & entries_ok(c, saiz, e, r, default)
}
