// Whether what the words of a set tell of its samples' sizes agrees. Every call asks it of the reference that its share holds.
// Letters: `t` the track, `w` the words of a set.
ghost use Rattle.std.specs.Prelude.{◌≡◌, true, ◌<◌, length};
ghost use Rattle.constants.specs.Maxima.{samples_most};
ghost use Rattle.field_table.specs.Lines.{set_len};
ghost use Rattle.field_set.specs.Lawful.{has};
ghost use Rattle.told_sizes.specs.Sums.{Summable};
ghost use Rattle.told_sizes.specs.Told.{told_sum, may_have, pairs_agree, sizes_agree};

use crate::sums;
use constants::maxima;
use field_table::lines;
use track::Track;

// The sum of the sizes that the words tell.
fn told_sum(t: Track, w: &[u64]) -> u64
    requires { Summable w.now }
    ensures { result ≡ told_sum t w.now }
{
    let n = w[lines::COUNT];
    if n <= 1 {
        return 0;
    }
    if w[lines::SIZES] != 0 {
        return sums::add_up(w, lines::SIZES + 1, lines::SIZES + n as usize);
    }
    if w[lines::SIZE] != 0 {
        return n * w[lines::SIZE + 1];
    }
    n * t.size as u64
}

// Whether the words tell no size of the sample with the number i, or just this one.
pub fn may_have(t: Track, w: &[u64], i: usize, bytes: u64) -> bool
    requires { (length w.now ≡ set_len) × (i < samples_most) }
    ensures { result ≡ may_have t w.now i bytes }
{
    let n = w[lines::COUNT];
    if n <= 1 {
        return true;
    }
    if w[lines::SIZES] != 0 {
        return (n <= i as u64 + 1) | (w[lines::SIZES + 1 + i] == bytes);
    }
    if w[lines::SIZE] != 0 {
        return w[lines::SIZE + 1] == bytes;
    }
    t.size as u64 == bytes
}

// Whether each sample's subsamples come to its size, where that is told, and all of them to no more than a payload has.
fn pairs_ok(t: Track, w: &[u64]) -> bool
    requires summable { Summable w.now }
    requires w_value { has 11 w.now ≡ true }
    ensures { result ≡ pairs_agree t w.now }
{
    let n = w[lines::COUNT] as usize;
    let mut ok = true;
    let mut all = 0;
    let mut j = 0;
    for i in 0..n {
        let k = w[lines::SUBSAMPLES + 1 + i] as usize;
        let bytes = sums::pair_bytes(w, j, k);
        ok = ok & may_have(t, w, i, bytes);
        all += bytes;
        j += k;
    }
    ok & (all <= maxima::PAYLOAD)
}

// Whether the sizes and the subsamples of a set agree as far as its words tell them.
pub fn sizes_agree(t: Track, w: &[u64]) -> bool
    requires { Summable w.now }
    ensures { result ≡ sizes_agree t w.now }
{
    if w[lines::SUBSAMPLES] != 0 {
        return pairs_ok(t, w);
    }
    told_sum(t, w) <= maxima::PAYLOAD
}
