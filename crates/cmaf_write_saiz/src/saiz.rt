// The sizes and the place of the entries of protected samples: `saiz` and `saio`.
// Letters: `t` the track, `w` the words of a set.
ghost use Rattle.std.specs.Prelude.{◌≡◌, ◌∷◌, [], ◌++◌, ◌+◌, ◌≤◌, ◌<◌, length};
ghost use Rattle.laws.specs.Bytes.{be};
ghost use Rattle.laws.specs.Writes.{Wrote};
ghost use Rattle.field_set.specs.Lawful.{count_in};
ghost use Rattle.boxes.specs.Box.{words};
ghost use Rattle.boxes.specs.Box as B;
ghost use Rattle.cmaf_write_senc.specs.Protection.{Protectable};
ghost use Rattle.cmaf_write_saiz.specs.Saiz.{info_size, info_sizes, all_sized, saiz_box, saio_box, saiz_most};

use boxes::{kinds, put};
use cmaf_write_senc::senc::{pairs_of, with_pairs};
use field_table::lines;
use track::Track;

// The bytes of the entry of the sample with the number i, as `saiz` has them.
fn info_size(t: Track, w: &[u64], i: usize) -> u64
    requires protectable { Protectable t w.now }
    requires i_bound { i < count_in w.now }
    ensures { (result ≡ info_size t w.now i) × (result < 256) }
{
    let k = pairs_of(w, i) as u64;
    t.iv_size as u64 + with_pairs(w, 2 + 6 * k)
}

// Whether the entries of all samples have v bytes.
fn all_sized(t: Track, w: &[u64], v: u64) -> bool
    requires { Protectable t w.now }
    ensures { result ≡ all_sized t w.now v (count_in w.now) 0 }
{
    let n = w[lines::COUNT] as usize;
    for i in 0..n {
        if info_size(t, w, i) != v {
            return false;
        }
    }
    true
}

// A byte for each sample.
fn put_sizes(t: Track, w: &[u64], out: &mut [u8], at: usize) -> usize
    requires protectable { Protectable t w.now }
    requires w_in_bounds { at + length (info_sizes t w.now (count_in w.now) 0) ≤ length out.old }
    ensures { Wrote out.old at (info_sizes t w.now (count_in w.now) 0)
        out.new result }
{
    let n = w[lines::COUNT] as usize;
    let mut p = at;
    for i in 0..n {
        p = put::put_u8(out, p, info_size(t, w, i));
    }
    p
}

// The length of the `saiz`.
pub fn saiz_length(t: Track, w: &[u64]) -> usize
    requires protectable { Protectable t w.now }
    requires w_nonzero { 0 < count_in w.now }
    ensures { (result ≡ length (saiz_box t w.now)) × (result ≤ saiz_most) }
{
    if all_sized(t, w, info_size(t, w, 0)) {
        17
    } else {
        17 + w[lines::COUNT] as usize
    }
}

// A `saiz` without the sizes of single samples: its own length, the size of all, and how many there are.
fn put_saiz_head(size: u64, all: u64, n: u64, out: &mut [u8], at: usize) -> usize
    requires { at + 17 ≤ length out.old }
    ensures { Wrote out.old at (words (size ∷ B.saiz ∷ 0 ∷ []) ++ (be 1 all ++ be 4 n))
        out.new result }
{
    let head: [u64; 3] = [size, kinds::SAIZ, 0];
    let a = put::put_words(out, at, &head);
    let b = put::put_u8(out, a, all);
    put::put_u32(out, b, n)
}

pub fn put_saiz(t: Track, w: &[u64], out: &mut [u8], at: usize) -> usize
    requires protectable { Protectable t w.now }
    requires w_nonzero { 0 < count_in w.now }
    requires w_in_bounds { at + length (saiz_box t w.now) ≤ length out.old }
    ensures { Wrote out.old at (saiz_box t w.now) out.new result }
{
    let n = w[lines::COUNT];
    let size = info_size(t, w, 0);
    if all_sized(t, w, size) {
        return put_saiz_head(17, size, n, out, at);
    }
    let a = put_saiz_head(17 + n, 0, n, out, at);
    put_sizes(t, w, out, a)
}

// ---- saio

// One offset.
pub fn put_saio(offset: u64, out: &mut [u8], at: usize) -> usize
    requires { at + 20 ≤ length out.old }
    ensures { Wrote out.old at (saio_box offset) out.new result }
{
    let all: [u64; 5] = [20, kinds::SAIO, 0, 1, offset];
    put::put_words(out, at, &all)
}
