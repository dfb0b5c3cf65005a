// Which fields of a set may stand together.
// Letters: `t` the track, `n` how many samples.
ghost use Rattle.std.specs.Prelude.{◌≡◌, List, ℕ, length};
ghost use Rattle.field_table.specs.Lines.{line_count};
ghost use Rattle.field_set.specs.Lawful.{set_rules, stands_of};

use field_table::order;
use track::Track;

// The fields that the rules speak of: which of them stand.
#[derive(Clone, Copy)]
struct Stands {
    sizes: bool,
    durations: bool,
    offsets: bool,
    size: bool,
    flags: bool,
    first_flags: bool,
    ivs: bool,
    subsamples: bool,
    clear: bool,
    protected: bool,
}

fn stands_of(marks: &[u64]) -> Stands
    requires { length marks.now ≡ line_count }
    ensures { result ≡ stands_of marks.now }
{
    Stands {
        sizes: marks[order::SIZES] != 0,
        durations: marks[order::DURATIONS] != 0,
        offsets: marks[order::OFFSETS] != 0,
        size: marks[order::SIZE] != 0,
        flags: marks[order::FLAGS] != 0,
        first_flags: marks[order::FIRST_FLAGS] != 0,
        ivs: marks[order::IVS] != 0,
        subsamples: marks[order::SUBSAMPLES] != 0,
        clear: marks[order::CLEAR] != 0,
        protected: marks[order::PROTECTED] != 0,
    }
}

// Whether the fields that stand may stand together, in a set with n samples.
fn together(t: Track, n: u64, f: Stands) -> bool
    ensures { (marks : List ℕ) → f ≡ stands_of marks → result ≡ set_rules t n marks }
{
    let lists = f.sizes
        | (f.durations | (f.offsets | (f.flags | (f.subsamples | (f.clear | f.protected)))));
    let cenc = t.protection as u64 == track::CENC;
    ((n != 0) | !(lists | (f.ivs | f.first_flags)))
        & (((n != 1) | !(f.sizes | f.size))
            & (!(f.sizes & f.size)
                & (!(f.flags & f.first_flags)
                    & ((f.subsamples == f.clear)
                        & ((f.clear == f.protected)
                            & ((!f.subsamples | (t.protection as u64 != track::NONE))
                                & ((f.ivs == (cenc & (n != 0)))
                                    & ((n <= 1) | ((f.sizes | f.size) | (t.size != 0))))))))))
}

// The same by the marks of all fields.
pub fn rules_ok(t: Track, n: u64, marks: &[u64]) -> bool
    requires { length marks.now ≡ line_count }
    ensures { result ≡ set_rules t n marks.now }
{
    together(t, n, stands_of(marks))
}
