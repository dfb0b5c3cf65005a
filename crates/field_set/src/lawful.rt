// Whether words are those of a lawful set: every call of the codec asks it of its share, so words are folded together, those that must be 0 and those
// that have a bound, and hardly one is read twice.
// Letters: `w` the words of a set, `t` the track, `n` how many.
ghost use Rattle.std.specs.Prelude.{◌≡◌, true, false, ◌||◌, ◌+◌, ◌-◌, ◌/◌, ◌≤◌, eqb, leb, length, get_or};
ghost use Rattle.std.proofs.Math.Seq.{slice};
ghost use Rattle.laws.specs.Tests.{all_zero, all_bits, sum};
ghost use Rattle.constants.specs.Maxima.{samples_most, entry_most};
ghost use Rattle.word_spans.specs.Totals.{TotalOf};
ghost use Rattle.field_table.specs.Lines.{lines, set_len, subsamples_at, marks_of, durations_line, Small};
ghost use Rattle.field_set.specs.Lawful.{TallyOf, TestedAs, regions_ok, same_iv_size, values_of, count_in, measure_of, lawful};

use crate::rules;
use constants::maxima;
use field_table::lines::Measure;
use field_table::marks::{marks_of, none_stands};
use field_table::{lines, order};
use track::Track;
use word_spans::scan;
use word_spans::scan::Total;

const U32: u64 = 0xffff_ffff;

// The bytes of a sample's entry in `saiz` that an IV and pairs of six bytes can take: the count of pairs has two.
const PAIRS: u64 = maxima::ENTRY - 2;

// The subsample counts of the samples: whether each is small enough, and their sum.
#[derive(Clone, Copy)]
pub struct Tally {
    pub ok: bool,
    pub sum: usize,
}

// The words from a place up to another, none of which may pass `most`.
fn tallied(w: &[u64], from: usize, to: usize, most: u64) -> Tally
    requires { (to ≤ length w.now) × (to ≤ from + samples_most) × (most ≤ 63) }
    ensures { TallyOf result most (slice from to w.now) }
{
    let mut ok = true;
    let mut sum = 0;
    for i in from..to {
        let v = w[i];
        ok = ok & (v <= most);
        sum += (v % 64) as usize;
    }
    Tally { ok, sum }
}

// What is found of the words of a set: whether they are lawful, and if so the sum of the durations that they list, and how many subsamples there are.
#[derive(Clone, Copy)]
pub struct Tested {
    pub ok: bool,
    pub durations: u64,
    pub pairs: usize,
}

fn unlawful() -> Tested
    ensures { result.ok ≡ false }
{
    Tested {
        ok: false,
        durations: 0,
        pairs: 0,
    }
}

// The durations that n samples list: they are walked once, for their bound and for their sum.
fn listed(w: &[u64], n: usize) -> Total
    requires { (length w.now ≡ set_len) × (n ≤ samples_most) }
    ensures { TotalOf result (values_of 3 n w.now) }
{
    if w[lines::DURATIONS] == 0 {
        return Total { bits: 0, sum: 0 };
    }
    let from = lines::DURATIONS + 1;
    scan::totalled(w, from, from + n)
}

// Whether the values of the line with the number i keep its bound. The durations were looked at before.
fn within(i: usize, w: &[u64], from: usize, to: usize, bound: u64) -> bool
    requires { to ≤ length w.now }
    ensures { result ≡ (eqb i durations_line || leb (all_bits (slice from to w.now)) bound) }
{
    if i == order::DURATIONS {
        return true;
    }
    scan::bits(w, from, to) <= bound
}

// Whether the regions of all lines are lawful. A field that doesn't stand has no word in use, so the words between two fields that stand are one
// run of zeros, which is read at once.
fn regions_ok(w: &[u64], m: Measure) -> Tested
    requires w_len { length w.now ≡ set_len }
    requires small { Small m }
    ensures { TestedAs result (regions_ok m lines w.now) m.count m.sum w.now }
{
    let d = listed(w, m.count);
    let mut ok = d.bits <= U32;
    let mut rest = 0;
    let mut free = lines::SIZES;
    for i in 0..lines::LINES {
        let mark = w[lines::place_at(i)];
        if mark != 0 {
            let l = lines::line_at(i);
            let place = l.place;
            let want = l.want;
            let used = lines::length_of(want, m);
            if l.room < used {
                return unlawful();
            }
            rest = rest | scan::bits(w, free, place);
            free = place + 1 + used;
            ok = ok & ((mark == 1) & within(i, w, place + 1, free, l.bound));
        }
    }
    Tested {
        ok: ok & ((rest | scan::bits(w, free, lines::SET)) == 0),
        durations: d.sum,
        pairs: m.sum,
    }
}

// The subsample counts of a set of n samples, by the mark of id 11.
pub fn tally_of(t: Track, w: &[u64], mark: u64, n: usize) -> Tally
    requires w_len { length w.now ≡ set_len }
    requires n_le_samples_most { (n ≤ samples_most) × (t.iv_size ≤ 16) }
    requires mark_value { mark ≡ get_or w.now subsamples_at 0 }
    ensures { TallyOf result ((entry_most - 2 - t.iv_size) / 6) (values_of 11 n w.now) }
{
    if mark == 0 {
        return Tally { ok: true, sum: 0 };
    }
    let from = lines::SUBSAMPLES + 1;
    tallied(w, from, from + n, (PAIRS - t.iv_size as u64) / 6)
}

// The lengths that the fields of a lawful set go by.
pub fn measure(t: Track, w: &[u64]) -> Measure
    requires w_len { length w.now ≡ set_len }
    requires iv_size_bound { t.iv_size ≤ 16 }
    requires w_value { lawful t w.now ≡ true }
    ensures { result ≡ measure_of t w.now }
{
    let n = w[lines::COUNT] as usize;
    let c = tally_of(t, w, w[lines::SUBSAMPLES], n);
    Measure {
        count: n,
        ivs: (t.iv_size / 8) as usize,
        sum: c.sum,
    }
}

// Whether the IV size, where it stands, is the parameter.
pub fn same_iv_size(t: Track, w: &[u64]) -> bool
    requires { length w.now ≡ set_len }
    ensures { result ≡ same_iv_size t w.now }
{
    (w[lines::IV_SIZE] == 0) | (w[lines::IV_SIZE + 1] == t.iv_size as u64)
}

// Whether the words of a set in which no field stands, with no sample or one, are lawful: all behind BMDT and the count is 0, and a sample on cenc has an IV.
fn bare_ok(t: Track, w: &[u64], n: u64) -> bool
    requires w_len { (length w.now ≡ set_len) × (t.iv_size ≤ 16) }
    requires n_value { (n ≡ count_in w.now) × (n ≤ 1) × (all_zero (marks_of w.now) ≡ true) }
    ensures { result ≡ lawful t w.now }
{
    (w[lines::BMDT] <= maxima::NUMBER)
        & ((scan::bits(w, lines::SIZES, lines::SET) == 0)
            & ((n == 0) | (t.protection as u64 != track::CENC)))
}

// Whether the words are those of a lawful set on the track. With no sample or one it is asked first whether any field stands, unless an offset does, as in a
// frame of video; with several some field stands nearly always. The subsample counts are looked at before the regions, since ids 13 and 15 go by their sum.
pub fn test_set(t: Track, w: &[u64]) -> Tested
    requires w_len { length w.now ≡ set_len }
    requires iv_size_bound { t.iv_size ≤ 16 }
    ensures { TestedAs result (lawful t w.now) (count_in w.now)
        (sum (values_of 11 (count_in w.now) w.now)) w.now }
{
    let n = w[lines::COUNT];
    if n > maxima::SAMPLES as u64 {
        return unlawful();
    }
    if n <= 1 {
        if w[lines::OFFSETS] == 0 {
            if none_stands(w) {
                return Tested {
                    ok: bare_ok(t, w, n),
                    durations: 0,
                    pairs: 0,
                };
            }
        }
    }
    let count = n as usize;
    let c = tally_of(t, w, w[lines::SUBSAMPLES], count);
    if !c.ok {
        return unlawful();
    }
    let m = Measure {
        count,
        ivs: (t.iv_size / 8) as usize,
        sum: c.sum,
    };
    let r = regions_ok(w, m);
    let ok = (w[lines::BMDT] <= maxima::NUMBER)
        & ((c.sum <= maxima::SUBSAMPLES)
            & ((r.ok & same_iv_size(t, w)) & rules::rules_ok(t, n, &marks_of(w))));
    Tested {
        ok,
        durations: r.durations,
        pairs: c.sum,
    }
}
