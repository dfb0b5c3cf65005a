// The effective durations of samples.
// Letters: `t` the track, `w` the words of a set.
ghost use Rattle.std.specs.Prelude.{◌≡◌, false};
ghost use Rattle.laws.specs.Tests.{sum};
ghost use Rattle.field_set.specs.Lawful.{has, values_of, count_in};
ghost use Rattle.effective.specs.Durations.{durations_of, Timed};

use field_table::lines;
use track::Track;

// Their sum where none is listed: every sample has the same.
fn unlisted(t: Track, w: &[u64]) -> u64
    requires { Timed w.now × (has 3 w.now ≡ false) }
    ensures { result ≡ durations_of t w.now }
{
    let n = w[lines::COUNT];
    if w[lines::DURATION] != 0 {
        return n * w[lines::DURATION + 1];
    }
    n * t.duration as u64
}

// Their sum.
pub fn durations(t: Track, w: &[u64]) -> u64
    requires { Timed w.now }
    ensures { result ≡ durations_of t w.now }
{
    if w[lines::DURATIONS] != 0 {
        let from = lines::DURATIONS + 1;
        return told_sizes::sums::add_up(w, from, from + w[lines::COUNT] as usize);
    }
    unlisted(t, w)
}

// The same where those that are listed have been added up.
pub fn durations_by(t: Track, w: &[u64], listed: u64) -> u64
    requires { Timed w.now × (listed ≡ sum (values_of 3 (count_in w.now) w.now)) }
    ensures { result ≡ durations_of t w.now }
{
    if w[lines::DURATIONS] != 0 {
        return listed;
    }
    unlisted(t, w)
}
