// Many words looked at as one, without a branch for each.
// Letters: `w` the words of a set.
ghost use Rattle.std.specs.Prelude.{◌≡◌, ℕ, ◌+◌, ◌^◌, ◌≤◌, ◌<◌, length};
ghost use Rattle.std.proofs.Math.Seq.{slice};
ghost use Rattle.std.specs.Int.Bits.{bit_or};
ghost use Rattle.laws.specs.Tests.{all_bits};
ghost use Rattle.word_spans.specs.Totals.{both_lanes, TotalOf};

// The bits that are set in some words, of those at an even distance from where they begin and of those at an odd one. A machine takes two words that
// stand side by side in one step, and brings its two lanes together once, behind the loops, not at each turn.
#[derive(Clone, Copy)]
struct Lanes {
    even: u64,
    odd: u64,
}

// The bits of one run of words and of another.
fn joined(a: Lanes, b: Lanes) -> Lanes
    ensures { both_lanes result ≡ bit_or (both_lanes a) (both_lanes b) }
{
    Lanes {
        even: a.even | b.even,
        odd: a.odd | b.odd,
    }
}

// The bits that are set in some of the four words from a place on, of the eight, of the sixteen, and of the sixty-four.
fn four(w: &[u64], i: usize) -> Lanes
    requires { i + 4 ≤ length w.now }
    ensures { both_lanes result ≡ all_bits (slice i (i + 4) w.now) }
{
    Lanes {
        even: w[i] | w[i + 2],
        odd: w[i + 1] | w[i + 3],
    }
}

fn eight(w: &[u64], i: usize) -> Lanes
    requires { i + 8 ≤ length w.now }
    ensures { both_lanes result ≡ all_bits (slice i (i + 8) w.now) }
{
    joined(four(w, i), four(w, i + 4))
}

fn sixteen(w: &[u64], i: usize) -> Lanes
    requires { i + 16 ≤ length w.now }
    ensures { both_lanes result ≡ all_bits (slice i (i + 16) w.now) }
{
    joined(eight(w, i), eight(w, i + 8))
}

fn sixty_four(w: &[u64], i: usize) -> Lanes
    requires { i + 64 ≤ length w.now }
    ensures { both_lanes result ≡ all_bits (slice i (i + 64) w.now) }
{
    joined(
        joined(sixteen(w, i), sixteen(w, i + 16)),
        joined(sixteen(w, i + 32), sixteen(w, i + 48)),
    )
}

// A word that is taken twice adds no bit. So steps may overlap, and no run needs a turn for each of its last words.

// Of one to three words: the first, the one in the middle and the last.
fn up_to_three(w: &[u64], from: usize, to: usize) -> u64
    requires { (to ≤ length w.now) × (from < to) × (to ≤ from + 3) }
    ensures { result ≡ all_bits (slice from to w.now) }
{
    w[from] | (w[from + (to - from) / 2] | w[to - 1])
}

// Of four to sixteen: a step from each end.
fn up_to_sixteen(w: &[u64], from: usize, to: usize) -> Lanes
    requires { (to ≤ length w.now) × (from + 4 ≤ to) × (to ≤ from + 16) }
    ensures { both_lanes result ≡ all_bits (slice from to w.now) }
{
    if to - from <= 8 {
        return joined(four(w, from), four(w, to - 4));
    }
    joined(eight(w, from), eight(w, to - 8))
}

fn few(w: &[u64], from: usize, to: usize) -> u64
    requires { (to ≤ length w.now) × (from < to) × (to ≤ from + 16) }
    ensures { result ≡ all_bits (slice from to w.now) }
{
    if to - from < 4 {
        return up_to_three(w, from, to);
    }
    let all = up_to_sixteen(w, from, to);
    all.even | all.odd
}

// Of the words from i on, fewer than sixteen, and of some before them: a step that ends where they do.
fn last_step(w: &[u64], i: usize, to: usize) -> Lanes
    requires { (to ≤ length w.now) × (i < to) × (to ≤ i + 16) × (16 ≤ to) }
    ensures { (k : ℕ) × (to ≤ k + 16) × (k ≤ i) × (both_lanes result ≡ all_bits (slice k to w.now)) }
{
    if to - i <= 4 {
        return four(w, to - 4);
    }
    sixteen(w, to - 16)
}

// Of sixteen and more: in the longest steps that are left, so that loops have few turns.
fn many(w: &[u64], from: usize, to: usize) -> u64
    requires { (to ≤ length w.now) × (from + 16 ≤ to) }
    ensures { result ≡ all_bits (slice from to w.now) }
{
    let mut all = Lanes { even: 0, odd: 0 };
    let mut i = from;
    while 64 <= to - i {
        all = joined(all, sixty_four(w, i));
        i += 64;
    }
    while 16 <= to - i {
        all = joined(all, sixteen(w, i));
        i += 16;
    }
    if i < to {
        all = joined(all, last_step(w, i, to));
    }
    all.even | all.odd
}

// The bits that are set in some word from a place up to another.
pub fn bits(w: &[u64], from: usize, to: usize) -> u64
    requires { to ≤ length w.now }
    ensures { result ≡ all_bits (slice from to w.now) }
{
    if to <= from {
        return 0;
    }
    if to - from < 16 {
        return few(w, from, to);
    }
    many(w, from, to)
}

// What some words come to: the bits that are set in some of them, and their sum, where each has 32 bits.
#[derive(Clone, Copy)]
pub struct Total {
    pub bits: u64,
    pub sum: u64,
}

// The words from a place up to another, in one walk.
pub fn totalled(w: &[u64], from: usize, to: usize) -> Total
    requires { (to ≤ length w.now) × (to ≤ from + 2 ^ 32) }
    ensures { TotalOf result (slice from to w.now) }
{
    let mut bits = 0;
    let mut sum = 0;
    for i in from..to {
        let v = w[i];
        bits = bits | v;
        sum += v % 0x1_0000_0000;
    }
    Total { bits, sum }
}
