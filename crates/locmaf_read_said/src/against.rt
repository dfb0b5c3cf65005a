// What an object is read against.
// Letters: `t` the track, `r` the words of the reference's set, `m` the lengths that fields go by.
ghost use Rattle.std.specs.Prelude.{◌≡◌, true, ◌≤◌, length};
ghost use Rattle.field_table.specs.Lines.{set_len};
ghost use Rattle.field_set.specs.Lawful.{lawful};
ghost use Rattle.locmaf_read_said.specs.Against.{against_of};

use field_set::lawful;
use field_table::lines::Measure;
use track::Track;
use wire::zigzag::Coding;

// What an object is read against: a delta against the reference's fields and their lengths, a full object against nothing.
#[derive(Clone, Copy)]
pub struct Against {
    pub coding: Coding,
    pub held: bool,
    pub was: Measure,
}

// What an object is read against on the share whose set is r; `held` says that it is a delta, and so that there is a reference.
pub fn base_of(t: Track, held: bool, r: &[u64]) -> Against
    requires { (length r.now ≡ set_len) × (t.iv_size ≤ 16) × (held ≡ true → lawful t r.now ≡ true) }
    ensures { result ≡ against_of t held r.now }
{
    if held {
        return Against {
            coding: Coding::Delta,
            held: true,
            was: lawful::measure(t, r),
        };
    }
    Against {
        coding: Coding::Plain,
        held: false,
        was: Measure {
            count: 0,
            ivs: 0,
            sum: 0,
        },
    }
}
