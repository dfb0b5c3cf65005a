// The sizes of the samples. Only id 1 tells samples apart, and it leaves the last one out, which is worked out once.
// Letters: `t` the track, `w` the words of a set, `i` which one, counted from 0.
ghost use Rattle.std.specs.Prelude.{◌≡◌, ◌≤◌, ◌<◌, length};
ghost use Rattle.constants.specs.Maxima.{samples_most};
ghost use Rattle.field_table.specs.Lines.{set_len};
ghost use Rattle.field_set.specs.Lawful.{count_in};
ghost use Rattle.effective.specs.Sizes.{last_size, listed_sizes, size_by, Sized};

use field_table::lines;
use told_sizes::sums::add_up;
use track::Track;

// The size of the last sample; of a lone one it is the payload's, whatever trex says.
pub fn last_size(t: Track, w: &[u64], payload: u64) -> u64
    requires w_len { (length w.now ≡ set_len) × (count_in w.now ≤ samples_most) }
    requires sized { Sized w.now payload }
    ensures { result ≡ last_size t w.now payload }
{
    let n = w[lines::COUNT];
    if n <= 1 {
        return payload;
    }
    if w[lines::SIZES] != 0 {
        return payload - add_up(w, lines::SIZES + 1, lines::SIZES + n as usize);
    }
    if w[lines::SIZE] != 0 {
        return w[lines::SIZE + 1];
    }
    t.size as u64
}

// How many samples have a size of their own among the words: all but the last, where id 1 stands.
pub fn listed_sizes(w: &[u64]) -> usize
    requires { length w.now ≡ set_len }
    ensures { result ≡ listed_sizes w.now }
{
    if w[lines::SIZES] == 0 {
        return 0;
    }
    if w[lines::COUNT] == 0 {
        return 0;
    }
    w[lines::COUNT] as usize - 1
}

// The size of the sample with the number i, where the first `listed` of them have one of their own.
pub fn size_at(w: &[u64], listed: usize, last: u64, i: usize) -> u64
    requires w_len { (length w.now ≡ set_len) × (i < samples_most) }
    requires listed_value { listed ≡ listed_sizes w.now }
    ensures { result ≡ size_by w.now last i }
{
    if i < listed {
        return w[lines::SIZES + 1 + i];
    }
    last
}
