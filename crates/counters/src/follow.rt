// The IVs that follow from the last one of the chunk before: each from the one before it by that one's protected bytes.
// Letters: `t` the track, `r` the words of the reference's set, `x` those of the new one, `last` the protected bytes of the reference's last sample, `c` its counter,
//   `k` how many words an IV has, `i` which sample, counted from 0, `j` the number of its first subsample.
ghost use Rattle.std.specs.Prelude.{◌≡◌, true, ◌⊎◌, ℕ, ◌+◌, ◌^◌, ◌≤◌, ◌<◌, length};
ghost use Rattle.constants.specs.Maxima.{subsamples_most};
ghost use Rattle.field_table.specs.Lines.{set_len};
ghost use Rattle.field_set.specs.Lawful.{has, value_at, count_in, lawful};
ghost use Rattle.told_sizes.specs.Sums.{Summable};
ghost use Rattle.iv_counter.specs.Counter.{Counts};
ghost use Rattle.counters.specs.Follow.{ivs_follow, Behind, DerivedAs, Passed, all_follow, AllPut};

use crate::protected;
use field_table::lines;
use iv_counter::Counter;
use track::Track;

// A walk over the samples of a chunk: the counter and the protected bytes of the one before, and the number of the next one's first subsample.
#[derive(Clone, Copy)]
struct Walk {
    c: Counter,
    bytes: u64,
    j: usize,
}

// The sample with the number i, whose counter is c, is passed. Behind the last one no counter follows, and its size may not be told.
fn past(t: Track, x: &[u64], c: Counter, i: usize, j: usize) -> Walk
    requires { Summable x.now × (i < count_in x.now) × (j + value_at 11 i x.now ≤ subsamples_most) }
    ensures { Passed t x.now c i j result }
{
    if i as u64 + 1 < x[lines::COUNT] {
        return Walk {
            c,
            bytes: protected::protected_of(t, x, i, j),
            j: j + x[protected::FIRST_COUNT + i] as usize,
        };
    }
    Walk { c, bytes: 0, j }
}

// Whether the IVs of the new set are those that follow from the counter c. The first one that isn't ends the walk.
fn all_follow(t: Track, k: usize, c: Counter, last: u64, x: &[u64]) -> bool
    requires { (length x.now ≡ set_len) × (lawful t x.now ≡ true) × ((k ≡ 1) ⊎ (k ≡ 2)) × (last ≤ 2 ^ 48) }
    ensures { (n payload : ℕ) → Counts k n c → result ≡ all_follow t k n last x.now payload }
{
    let top = iv_counter::top_of(k);
    let n = x[lines::COUNT] as usize;
    let mut v = Walk {
        c,
        bytes: last,
        j: 0,
    };
    for i in 0..n {
        let d = iv_counter::counter_at(x, k, i);
        if !iv_counter::comes(top, v.c, v.bytes, d) {
            return false;
        }
        v = past(t, x, d, i, v.j);
    }
    true
}

// Whether they follow from the reference's last one.
pub fn ivs_follow(t: Track, last: u64, r: &[u64], x: &[u64]) -> bool
    requires { Behind t last r.now x.now }
    ensures { (payload : ℕ) → result ≡ ivs_follow t last r.now x.now payload }
{
    if (r[lines::IVS] == 0) | (x[lines::IVS] == 0) {
        return false;
    }
    let k = (t.iv_size / 8) as usize;
    all_follow(
        t,
        k,
        iv_counter::counter_at(r, k, r[lines::COUNT] as usize - 1),
        last,
        x,
    )
}

// The IVs that follow from the counter c are put into the room that the new set has for them. The last one tells whether any passes its size.
fn put_all(t: Track, k: usize, c: Counter, last: u64, x: &mut [u64]) -> bool
    requires { (length x.old ≡ set_len) × (lawful t x.old ≡ true) × ((k ≡ 1) ⊎ (k ≡ 2)) × (last ≤ 2 ^ 48) }
    ensures { (n payload : ℕ) → Counts k n c → c.ok ≡ true → AllPut t k n last x.old payload result x.new }
{
    let top = iv_counter::top_of(k);
    let n = x[lines::COUNT] as usize;
    let mut v = Walk {
        c,
        bytes: last,
        j: 0,
    };
    for i in 0..n {
        let d = iv_counter::next(top, v.c, v.bytes);
        iv_counter::put_counter(d, k, i, &mut *x);
        v = past(t, x, d, i, v.j);
    }
    v.c.ok
}

// Those that follow from the reference's last one are put there, unless one passes its size.
pub fn derive(t: Track, last: u64, r: &[u64], x: &mut [u64]) -> bool
    requires behind { Behind t last r.now x.old }
    requires r_value { (has 9 r.now ≡ true) × (has 9 x.old ≡ true) }
    ensures { (payload : ℕ) → DerivedAs t last r.now x.old payload result x.new }
{
    let k = (t.iv_size / 8) as usize;
    put_all(
        t,
        k,
        iv_counter::counter_at(r, k, r[lines::COUNT] as usize - 1),
        last,
        x,
    )
}
