// The marks of the fields, in the order of the lines.
// Letters: `w` the words of a set.
ghost use Rattle.std.specs.Prelude.{◌≡◌, length};
ghost use Rattle.laws.specs.Tests.{all_zero};
ghost use Rattle.field_table.specs.Lines.{set_len, marks_of};

use crate::lines;

pub fn marks_of(w: &[u64]) -> [u64; lines::LINES]
    requires { length w.now ≡ set_len }
    ensures { result ≡ marks_of w.now }
{
    [
        w[lines::SIZES],
        w[lines::DESCRIPTION],
        w[lines::DURATIONS],
        w[lines::DURATION],
        w[lines::OFFSETS],
        w[lines::SIZE],
        w[lines::FLAGS],
        w[lines::DEFAULT_FLAGS],
        w[lines::IVS],
        w[lines::SUBSAMPLES],
        w[lines::FIRST_FLAGS],
        w[lines::CLEAR],
        w[lines::PROTECTED],
        w[lines::IV_SIZE],
    ]
}

// Whether no field stands.
pub fn none_stands(w: &[u64]) -> bool
    requires { length w.now ≡ set_len }
    ensures { result ≡ all_zero (marks_of w.now) }
{
    let mut all = 0;
    for i in 0..lines::LINES {
        all = all | w[lines::place_at(i)];
    }
    all == 0
}
