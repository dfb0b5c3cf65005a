// The BMDT that is expected behind a chunk: its own plus its effective durations. A delta whose BMDT is that one leaves it out.
// Letters: `t` the track, `w` the words of a set, `e` what is expected.
ghost use Rattle.std.specs.Prelude.{◌≡◌, ℕ, ◌+◌, eqb};
ghost use Rattle.effective.specs.Durations.{Timed};
ghost use Rattle.effective.specs.Expected.{next_time, expected_by};

use crate::durations::durations;
use field_table::lines;
use track::Track;

// As a share keeps it: the sum, or a mark where the sum passes 64 bits. Every number of 64 bits can be a sum, so the mark is a word of its own; and since no BMDT is
// derived from a sum that passes, nothing more is kept of it.
#[derive(Clone, Copy, PartialEq)]
pub struct Expected {
    pub past: u64,
    pub time: u64,
}

// Behind a chunk with this BMDT and these durations.
pub fn expected_by(bmdt: u64, durations: u64) -> Expected
    ensures { result ≡ expected_by (bmdt + durations) }
{
    match bmdt.checked_add(durations) {
        Some(time) => Expected { past: 0, time },
        None => Expected { past: 1, time: 0 },
    }
}

// Behind a chunk with the set w.
pub fn expected_behind(t: Track, w: &[u64]) -> Expected
    requires { Timed w.now }
    ensures { result ≡ expected_by (next_time t w.now) }
{
    expected_by(w[lines::BMDT], durations(t, w))
}

// Whether a BMDT is the one that is expected: one after a jump isn't, forwards or back, and none is where the sum passes.
pub fn follows(e: Expected, bmdt: u64) -> bool
    ensures { (n : ℕ) → e ≡ expected_by n → result ≡ eqb bmdt n }
{
    (e.past == 0) & (bmdt == e.time)
}
