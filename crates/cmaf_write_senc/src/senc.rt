// The `senc` of protected samples, written from the words of a set.
// Letters: `w` the words of a set, `v` a number, `t` the track, `i` which one, counted from 0.
ghost use Rattle.std.specs.Prelude.{◌≡◌, ◌++◌, ◌+◌, ◌*◌, ◌/◌, ◌≤◌, ◌<◌, length};
ghost use Rattle.laws.specs.Bytes.{be};
ghost use Rattle.laws.specs.Tests.{sum};
ghost use Rattle.laws.specs.Writes.{Wrote};
ghost use Rattle.constants.specs.Maxima.{samples_most, subsamples_most};
ghost use Rattle.field_table.specs.Lines.{set_len};
ghost use Rattle.field_set.specs.Lawful.{has, values_of, value_at, count_in};
ghost use Rattle.boxes.specs.Box.{flag_when, when};
ghost use Rattle.cmaf_write_senc.specs.Protected.{iv_bytes, subsamples, senc_entries, senc_box};
ghost use Rattle.cmaf_write_senc.specs.Protection.{Protectable, senc_most};

use boxes::{kinds, put};
use field_table::lines;
use track::Track;

// ---- what the entries hold

// The words of the IV of a sample: none in a set without IVs.
fn iv_words(t: Track, w: &[u64]) -> usize
    requires { Protectable t w.now }
    ensures { (result ≡ flag_when (has 9 w.now) (t.iv_size / 8)) × (result ≤ 2) }
{
    if w[lines::IVS] == 0 {
        0
    } else {
        (t.iv_size / 8) as usize
    }
}

// v, or 0 in a set without subsamples.
pub fn with_pairs(w: &[u64], v: u64) -> u64
    requires { length w.now ≡ set_len }
    ensures { (result ≡ flag_when (has 11 w.now) v) × (result ≤ v) }
{
    if w[lines::SUBSAMPLES] == 0 { 0 } else { v }
}

// The subsamples of the sample with the number i.
pub fn pairs_of(w: &[u64], i: usize) -> usize
    requires { (length w.now ≡ set_len) × (i < samples_most) }
    ensures { result ≡ flag_when (has 11 w.now) (value_at 11 i w.now) }
{
    with_pairs(w, w[lines::SUBSAMPLES + 1 + i]) as usize
}

// The subsamples of all samples.
fn pairs(w: &[u64]) -> usize
    requires w_len { (length w.now ≡ set_len) × (count_in w.now ≤ samples_most) }
    requires w_bound { sum (values_of 11 (count_in w.now) w.now) ≤ subsamples_most }
    ensures { result ≡ sum (values_of 11 (count_in w.now) w.now) }
{
    let n = w[lines::COUNT] as usize;
    let mut sum = 0;
    for i in 0..n {
        sum += pairs_of(w, i);
    }
    sum
}

// ---- senc

// k words of an IV, from the number i on.
fn put_iv(w: &[u64], k: usize, i: usize, out: &mut [u8], at: usize) -> usize
    requires w_len { (length w.now ≡ set_len) × (i + k ≤ 2 * samples_most) }
    requires i_in_bounds { at + length (iv_bytes w.now k i) ≤ length out.old }
    ensures { Wrote out.old at (iv_bytes w.now k i) out.new result }
{
    let end = i + k;
    let mut p = at;
    for j in i..end {
        p = put::put_u64(out, p, w[lines::IVS + 1 + j]);
    }
    p
}

// k subsamples, from the number i on: clear bytes and protected bytes.
fn put_subsamples(w: &[u64], k: usize, i: usize, out: &mut [u8], at: usize) -> usize
    requires w_len { (length w.now ≡ set_len) × (i + k ≤ subsamples_most) }
    requires i_in_bounds { at + length (subsamples w.now k i) ≤ length out.old }
    ensures { Wrote out.old at (subsamples w.now k i) out.new result }
{
    let end = i + k;
    let mut p = at;
    for j in i..end {
        let a = put::put_u16(out, p, w[lines::CLEAR + 1 + j]);
        p = put::put_u32(out, a, w[lines::PROTECTED + 1 + j]);
    }
    p
}

// The subsamples of a sample after their count k, where the set has them; the first has the number i.
fn put_map(w: &[u64], k: usize, i: usize, out: &mut [u8], at: usize) -> usize
    requires w_len { (length w.now ≡ set_len) × (i + k ≤ subsamples_most) }
    requires i_in_bounds { at + length (when (has 11 w.now) (be 2 k ++ subsamples w.now k i)) ≤ length out.old }
    ensures { Wrote out.old at
        (when (has 11 w.now) (be 2 k ++ subsamples w.now k i)) out.new result }
{
    if w[lines::SUBSAMPLES] == 0 {
        return at;
    }
    let a = put::put_u16(out, at, k as u64);
    put_subsamples(w, k, i, out, a)
}

// The entries of all samples; j is the number of the first subsample of the sample i.
fn put_entries(t: Track, w: &[u64], out: &mut [u8], at: usize) -> usize
    requires protectable { Protectable t w.now }
    requires w_in_bounds { at + length (senc_entries t w.now (count_in w.now) 0 0) ≤ length out.old }
    ensures { Wrote out.old at (senc_entries t w.now (count_in w.now) 0 0)
        out.new result }
{
    let n = w[lines::COUNT] as usize;
    let ivs = iv_words(t, w);
    let mut p = at;
    let mut j = 0;
    for i in 0..n {
        let k = pairs_of(w, i);
        let a = put_iv(w, ivs, i * ivs, out, p);
        p = put_map(w, k, j, out, a);
        j += k;
    }
    p
}

// The length of the `senc`.
pub fn senc_length(t: Track, w: &[u64]) -> usize
    requires { Protectable t w.now }
    ensures { (result ≡ length (senc_box t w.now)) × (result ≤ senc_most) }
{
    let n = w[lines::COUNT] as usize;
    let head = 8 * iv_words(t, w) + with_pairs(w, 2) as usize;
    16 + (n * head + 6 * pairs(w))
}

pub fn put_senc(t: Track, w: &[u64], out: &mut [u8], at: usize) -> usize
    requires protectable { Protectable t w.now }
    requires w_in_bounds { at + length (senc_box t w.now) ≤ length out.old }
    ensures { Wrote out.old at (senc_box t w.now) out.new result }
{
    let size = senc_length(t, w) as u64;
    let flags = with_pairs(w, 2);
    let n = w[lines::COUNT];
    let head: [u64; 4] = [size, kinds::SENC, flags, n];
    let a = put::put_words(out, at, &head);
    put_entries(t, w, out, a)
}
