// Words of a set added up.
// Letters: `w` the words of a set, `j` the number of a subsample, `k` how many.
ghost use Rattle.std.specs.Prelude.{◌≡◌, ◌+◌, ◌^◌, ◌≤◌, ◌<◌, length};
ghost use Rattle.std.proofs.Math.Seq.{slice};
ghost use Rattle.laws.specs.Tests.{sum};
ghost use Rattle.constants.specs.Maxima.{subsamples_most};
ghost use Rattle.told_sizes.specs.Sums.{pair_bytes, Summable};

use field_table::lines;

// The sum of the words from a place up to another.
pub fn add_up(w: &[u64], from: usize, to: usize) -> u64
    requires { (to ≤ length w.now) × (sum (slice from to w.now) < 2 ^ 64) }
    ensures { result ≡ sum (slice from to w.now) }
{
    let mut sum = 0;
    for i in from..to {
        sum += w[i];
    }
    sum
}

// The clear and protected bytes of k subsamples from the number j on, in one loop: most samples have few.
pub fn pair_bytes(w: &[u64], j: usize, k: usize) -> u64
    requires summable { Summable w.now }
    requires k_bound { j + k ≤ subsamples_most }
    ensures { (result ≡ pair_bytes w.now j k) × (result < 2 ^ 41) }
{
    let a = lines::CLEAR + 1 + j;
    let b = lines::PROTECTED + 1 + j;
    let mut sum = 0;
    for i in 0..k {
        sum += w[a + i] + w[b + i];
    }
    sum
}
