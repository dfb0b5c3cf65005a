// The protected bytes of a sample: all of it, or those that its subsamples have.
// Letters: `t` the track, `w` the words of a set, `i` which sample, counted from 0, `j` the number of a subsample.
ghost use Rattle.std.specs.Prelude.{◌≡◌, true, ℕ, ◌+◌, ◌^◌, ◌≤◌, ◌<◌};
ghost use Rattle.laws.specs.Tests.{sum};
ghost use Rattle.constants.specs.Maxima.{subsamples_most};
ghost use Rattle.field_set.specs.Lawful.{has, value_at, values_of, count_in, lawful};
ghost use Rattle.told_sizes.specs.Sums.{Summable};
ghost use Rattle.effective.specs.Sizes.{size_of, Sized};
ghost use Rattle.counters.specs.Protected.{protected_of, last_bytes, last_protected, last_fits};

use constants::maxima;
use field_table::lines;
use told_sizes::sums::add_up;
use track::Track;

// The place of the first size that id 1 lists, behind its mark.
const FIRST_SIZE: usize = lines::SIZES + 1;

// That of the size of all samples.
const ONE_SIZE: usize = lines::SIZE + 1;

// That of the first subsample count.
pub const FIRST_COUNT: usize = lines::SUBSAMPLES + 1;

// That of the first subsample's protected bytes.
const FIRST_PROTECTED: usize = lines::PROTECTED + 1;

// The size of a sample that isn't the last: it is told, so that no payload is asked for.
fn told_size(t: Track, w: &[u64], i: usize) -> u64
    requires { Summable w.now × (i + 1 < count_in w.now) }
    ensures { ((payload : ℕ) → result ≡ size_of t w.now payload i) × (result ≤ 2 ^ 48) }
{
    if w[lines::SIZES] != 0 {
        return w[FIRST_SIZE + i];
    }
    if w[lines::SIZE] != 0 {
        return w[ONE_SIZE];
    }
    t.size as u64
}

// The protected bytes of a sample that isn't the last, the first of whose subsamples has the number j.
pub fn protected_of(t: Track, w: &[u64], i: usize, j: usize) -> u64
    requires summable { Summable w.now × (i + 1 < count_in w.now) }
    requires w_bound { has 11 w.now ≡ true → j + value_at 11 i w.now ≤ subsamples_most }
    ensures { ((payload : ℕ) → result ≡ protected_of t w.now payload i j) × (result ≤ 2 ^ 48) }
{
    if w[lines::SUBSAMPLES] != 0 {
        let from = FIRST_PROTECTED + j;
        return add_up(w, from, from + w[FIRST_COUNT + i] as usize);
    }
    told_size(t, w, i)
}

// How many subsamples there are.
fn pairs_in(w: &[u64]) -> usize
    requires { Summable w.now × (has 11 w.now ≡ true) }
    ensures { result ≡ sum (values_of 11 (count_in w.now) w.now) }
{
    add_up(w, FIRST_COUNT, FIRST_COUNT + w[lines::COUNT] as usize) as usize
}

// Those of the last sample by its subsamples, which are the last of all.
fn last_bytes(w: &[u64], pairs: usize) -> u64
    requires summable { Summable w.now × (has 11 w.now ≡ true) × (1 ≤ count_in w.now) }
    requires pairs_value { pairs ≡ sum (values_of 11 (count_in w.now) w.now) }
    ensures { result ≡ last_bytes w.now }
{
    let own = w[lines::SUBSAMPLES + w[lines::COUNT] as usize] as usize;
    let end = FIRST_PROTECTED + pairs;
    add_up(w, end - own, end)
}

// Those of the last sample of a chunk; 0 off cenc and without samples, where no IV stands.
pub fn last_protected(t: Track, w: &[u64], payload: u64) -> u64
    requires summable { Summable w.now × Sized w.now payload }
    requires w_value { lawful t w.now ≡ true }
    ensures { result ≡ last_protected t w.now payload }
{
    if w[lines::IVS] == 0 {
        return 0;
    }
    if w[lines::SUBSAMPLES] != 0 {
        return last_bytes(w, pairs_in(w));
    }
    effective::sizes::last_size(t, w, payload)
}

// Whether a number can be that, as far as the words tell it, whose subsamples were counted.
pub fn last_fits(t: Track, w: &[u64], pairs: usize, last: u64) -> bool
    requires summable { Summable w.now × (lawful t w.now ≡ true) }
    requires pairs_value { pairs ≡ sum (values_of 11 (count_in w.now) w.now) }
    ensures { result ≡ last_fits t w.now last }
{
    if w[lines::IVS] == 0 {
        return last == 0;
    }
    if w[lines::SUBSAMPLES] != 0 {
        return last == last_bytes(w, pairs);
    }
    (last <= maxima::PAYLOAD) & told_sizes::told::may_have(t, w, w[lines::COUNT] as usize - 1, last)
}
