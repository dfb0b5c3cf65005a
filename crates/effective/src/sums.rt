// Sizes against the payload, and protected bytes against the sizes.
// Letters: `t` the track, `w` the words of a set.
ghost use Rattle.std.specs.Prelude.{◌≡◌, true, ◌+◌, ◌≤◌, ◌<◌};
ghost use Rattle.constants.specs.Maxima.{payload_most};
ghost use Rattle.told_sizes.specs.Sums.{Summable};
ghost use Rattle.effective.specs.Sums.{sizes_ok, protected_ok};

use field_table::lines;
use told_sizes::sums::{add_up, pair_bytes};
use track::Track;

// Whether the sizes of the samples add up to the payload.
pub fn sizes_ok(t: Track, w: &[u64], payload: u64) -> bool
    requires { Summable w.now }
    ensures { result ≡ sizes_ok t w.now payload }
{
    let n = w[lines::COUNT];
    if n == 0 {
        return payload == 0;
    }
    if n == 1 {
        return true;
    }
    if w[lines::SIZES] != 0 {
        return add_up(w, lines::SIZES + 1, lines::SIZES + n as usize) <= payload;
    }
    if w[lines::SIZE] != 0 {
        return n * w[lines::SIZE + 1] == payload;
    }
    n * t.size as u64 == payload
}

// Whether the protected sums are the sizes, once the sizes are known to add up.
pub fn protected_ok(t: Track, w: &[u64], payload: u64) -> bool
    requires summable { Summable w.now }
    requires payload_le_payload_most { (payload ≤ payload_most) × (sizes_ok t w.now payload ≡ true) }
    ensures { result ≡ protected_ok t w.now payload }
{
    if w[lines::SUBSAMPLES] == 0 {
        return true;
    }
    let n = w[lines::COUNT] as usize;
    let listed = crate::sizes::listed_sizes(w);
    let last = crate::sizes::last_size(t, w, payload);
    let mut ok = true;
    let mut j = 0;
    for i in 0..n {
        let k = w[lines::SUBSAMPLES + 1 + i] as usize;
        ok = ok & (pair_bytes(w, j, k) == crate::sizes::size_at(w, listed, last, i));
        j += k;
    }
    ok
}
