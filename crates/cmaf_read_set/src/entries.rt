// What the entries of a `senc` say: IVs, and subsamples, though there be none.
// Letters: `t` the track, `c` a chunk's bytes, `e` the entries of the `senc`, `f` the boxes inside the `moof`, `x` the words of the new set.
ghost use Rattle.std.specs.Prelude.{◌≡◌, true, ◌+◌, ◌*◌, ◌/◌, ◌≤◌, ◌<◌, length};
ghost use Rattle.std.proofs.lemmas.List.Edits.{sets};
ghost use Rattle.constants.specs.Maxima.{samples_most, subsamples_most};
ghost use Rattle.cmaf_read_shape.specs.Parts.{Inside};
ghost use Rattle.cmaf_read_senc.specs.Entries.{pairs_at, length_at, senc_ok, FewPairs};
ghost use Rattle.field_table.specs.Lines.{ivs_at, set_len};
ghost use Rattle.field_rules.specs.Words.{store_all};
ghost use Rattle.cmaf_read_set.specs.Entries.{iv_words};
ghost use Rattle.cmaf_read_set.specs.Stored.{stored_pairs, stored_entry, stored_entries, stored_marks, protection_lines};
ghost use Rattle.cmaf_read_set.specs.Gatherable.{FewEntries, FewSubsamples};
ghost use Rattle.cmaf_read_set.specs.Set as G;

use cmaf_read_senc::entries;
use cmaf_read_senc::entries::Entries;
use cmaf_read_shape::inner::Inner;
use cmaf_read_tree::numbers;
use field_table::lines;
use track::Track;

// An IV as k words of eight bytes, from the number i on.
fn put_iv(c: &[u8], at: usize, k: usize, x: &mut [u64], i: usize)
    requires { (at + 8 * k ≤ length c.now) × (ivs_at + 1 + i + k ≤ length x.old) × (k ≤ 32) }
    ensures { x.new ≡ sets x.old (ivs_at + 1 + i) (iv_words c.now k at) }
{
    for j in 0..k {
        x[lines::IVS + 1 + i + j] = numbers::u64_at(c, at + 8 * j);
    }
}

// k subsamples that stand from the place on; the first gets the number i.
fn put_pairs(c: &[u8], at: usize, k: usize, x: &mut [u64], i: usize)
    requires { (at + 6 * k ≤ length c.now) × (i + k ≤ subsamples_most) × (length x.old ≡ set_len) }
    ensures { x.new ≡ stored_pairs c.now k at i x.old }
{
    for j in 0..k {
        let p = at + 6 * j;
        x[lines::CLEAR + 1 + i + j] = numbers::u16_at(c, p);
        x[lines::PROTECTED + 1 + i + j] = numbers::u32_at(c, p + 2);
    }
}

// The marks of the fields that the entries have.
fn put_marks(e: Entries, x: &mut [u64])
    requires { length x.old ≡ set_len }
    ensures { x.new ≡ stored_marks e x.old }
{
    if e.iv != 0 {
        x[lines::IVS] = 1;
    }
    if e.map {
        x[lines::SUBSAMPLES] = 1;
        x[lines::CLEAR] = 1;
        x[lines::PROTECTED] = 1;
    }
}

// The entry at the place, that of the sample i, with its k subsamples, the first of which has the number j.
fn put_entry(c: &[u8], e: Entries, at: usize, k: usize, x: &mut [u64], i: usize, j: usize)
    requires k_value { (k ≡ pairs_at c.now e at) × (at + length_at c.now e at ≤ length c.now) }
    requires i_lt_samples_most { (i < samples_most) × (j + k ≤ subsamples_most) × (e.iv ≤ 16) × (length x.old ≡ set_len) }
    ensures { x.new ≡ stored_entry c.now e at i j x.old }
{
    let ivs = e.iv / 8;
    put_iv(c, at, ivs, &mut *x, ivs * i);
    if e.map {
        x[lines::SUBSAMPLES + 1 + i] = k as u64;
        put_pairs(c, at + e.iv + 2, k, &mut *x, j);
    }
}

// All entries; j is the number of the next subsample.
fn put_entries(c: &[u8], e: Entries, x: &mut [u64])
    requires count_le_samples_most { (e.count ≤ samples_most) × (e.iv ≤ 16) × FewPairs c.now e e.count subsamples_most }
    requires x_len { length x.old ≡ set_len }
    ensures { x.new ≡ stored_entries c.now e e.count e.at 0 0 x.old }
{
    let n = e.count as usize;
    let mut j = 0;
    let mut p = e.at;
    for i in 0..n {
        let k = entries::pairs_at(c, e, p);
        put_entry(c, e, p, k, &mut *x, i, j);
        p += e.iv + entries::map_length(e, k);
        j += k;
    }
}

// The fields that the `senc` has, where it stands.
pub fn put_protection(t: Track, c: &[u8], f: Inner, x: &mut [u64])
    requires inside { Inside c.now f.senc × (senc_ok t c.now f.senc ≡ true) }
    requires few_entries { FewEntries t c.now f × (t.iv_size ≤ 16) × FewSubsamples t c.now f }
    requires x_len { length x.old ≡ set_len }
    ensures { x.new ≡ store_all (G.field_of t c.now f) protection_lines x.old }
{
    let senc = f.senc;
    if senc.len == 0 {
        return;
    }
    let e = entries::entries_of(t, c, senc);
    put_marks(e, &mut *x);
    put_entries(c, e, &mut *x);
}
