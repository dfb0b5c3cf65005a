// All fields of the new set, in the order of the rules.
// Letters: `t` the track, `o` an object's bytes, `r` the words of the reference's set, `x` the words of the new set.
ghost use Rattle.std.specs.Prelude.{◌≡◌, true, ◌≤◌, ◌<◌, length, get_or, replicate};
ghost use Rattle.std.proofs.Math.Seq.{slice};
ghost use Rattle.constants.specs.Maxima.{samples_most};
ghost use Rattle.laws.specs.Ladder.{ladder};
ghost use Rattle.refusal.specs.Numbers.{number_in};
ghost use Rattle.wire.specs.Form.{rows};
ghost use Rattle.locmaf_read_index.specs.Places.{index_len};
ghost use Rattle.field_table.specs.Lines.{lines, spare, line_count, set_len};
ghost use Rattle.field_set.specs.Lawful.{lawful};
ghost use Rattle.std.specs.Prelude.{Some};
ghost use Rattle.locmaf_read_said.specs.Said.{says_in, scalar_in, Telling};
ghost use Rattle.field_rules.specs.Words.{no_fields, set_words};
ghost use Rattle.locmaf_read_field.specs.Cells.{TakenIf};
ghost use Rattle.locmaf_read_set.specs.Read.{count_from, count_reached, brands_in, stays_in, marks_in, came_of, Lent, Readable, Measured, ClearFrom, TakenAll, FrontTaken, none_sent, bare_rungs, SetReadAs, FieldsReadAs, first_rungs, LastReadAs};

use constants::{ids, maxima};
use field_set::lawful::Tally;
use field_set::{lawful, rules};
use field_table::lines::Measure;
use field_table::marks::none_stands;
use field_table::{lines, order};
use locmaf_read_field::cells;
use locmaf_read_field::cells::Cell;
use locmaf_read_index::places;
use locmaf_read_said::against::Against;
use locmaf_read_said::{against, deletions, said};
use refusal::Refusal;
use track::Track;
use wire::form::Form;
use wire::zigzag::Coding;

// The line of id 11, whose sum the lengths of ids 13 and 15 go by, and the one behind it.
const PAIRS: usize = order::SUBSAMPLES;

const PAST_PAIRS: usize = order::SUBSAMPLES + 1;

// The sample count that the object gives.
fn count_of(coding: Coding, index: &[u64], old: u64) -> Option<u64>
    requires { length index.now ≡ index_len }
    ensures { result ≡ count_from coding (scalar_in index.now 14) old }
{
    if index[places::SAMPLES] == 0 {
        return Some(old);
    }
    wire::zigzag::reach(
        coding,
        old,
        maxima::SAMPLES as u64,
        index[places::SAMPLES_NUMBER],
    )
}

// Whether the brands, where they stand, are some brands of four bytes each.
fn brands_fit(index: &[u64]) -> bool
    requires { length index.now ≡ index_len }
    ensures { result ≡ brands_in index.now }
{
    (index[places::BRANDS] == 0)
        | ((index[places::BRANDS_LENGTH] != 0) & (index[places::BRANDS_LENGTH] % 4 == 0))
}

// Whether the field of the line with the number i stands in the new set: it is sent, or stood and isn't deleted.
fn stays(index: &[u64], gone: &[u64], held: bool, r: &[u64], i: usize) -> bool
    requires { (i < line_count) × Lent index.now gone.now r.now }
    ensures { result ≡ stays_in index.now gone.now held r.now (get_or lines i spare) }
{
    let id = lines::id_at(i) as usize;
    let place = lines::place_at(i);
    (index[id * places::EACH] != 0) | ((gone[id] == 0) & (held & (r[place] != 0)))
}

// The marks of the fields that stand in the new set, whatever their values are: the rules of the set are asked before the values'.
fn standing(index: &[u64], gone: &[u64], held: bool, r: &[u64]) -> [u64; lines::LINES]
    requires { Lent index.now gone.now r.now }
    ensures { result ≡ marks_in index.now gone.now held r.now }
{
    let mut m = [0u64; lines::LINES];
    for i in 0..lines::LINES {
        if stays(index, gone, held, r, i) {
            m[i] = 1;
        }
    }
    m
}

// Whether the object sends no field of the set, but for BMDT and the sample count.
fn none_sent(index: &[u64]) -> bool
    requires { length index.now ≡ index_len }
    ensures { result ≡ none_sent index.now }
{
    let mut all = 0;
    for i in 0..lines::LINES {
        all = all | index[lines::id_at(i) as usize * places::EACH];
    }
    all == 0
}

// The rules of a set of n samples in which no field stands: 14.
fn bare_rules(t: Track, n: u64, index: &[u64]) -> Result<(), Refusal>
    requires { length index.now ≡ index_len }
    ensures { number_in result ≡ ladder (bare_rungs t n index.now) (λ j. j) 0 }
{
    if brands_fit(index) & rules::rules_ok(t, n, &[0u64; lines::LINES]) {
        return Ok(());
    }
    Err(Refusal::UnlawfulSet)
}

// The field of the line with the number i, which stands: it is sent or carried on. Its length goes by m.
fn take_line(
    form: Form,
    a: Against,
    o: &[u8],
    index: &[u64],
    gone: &[u64],
    t: Track,
    r: &[u64],
    m: Measure,
    i: usize,
    x: &mut [u64],
) -> Cell
    requires readable { Readable (rows form) o.now index.now gone.now t a r.now }
    requires measured { (Measured m) × (i < line_count) × (length x.old ≡ set_len) }
    ensures { TakenIf (ClearFrom i x.old)
        (came_of t a.held r.now (says_in (rows form) o.now index.now) m
        (get_or lines i spare))
        (get_or lines i spare).place x.old result x.new }
{
    let l = lines::line_at(i);
    let word = said::word_of(index, gone, l.id);
    let coding = a.coding;
    cells::take(form, coding, o, word, t, a.held, r, a.was, l, m, x)
}

// The fields of the lines from a number up to another, with lengths that go by m. One that is neither sent nor carried on
// is right as it is, and has no words: its mark is 0.
fn take_lines(
    form: Form,
    a: Against,
    o: &[u8],
    index: &[u64],
    gone: &[u64],
    marks: &[u64],
    t: Track,
    r: &[u64],
    m: Measure,
    from: usize,
    to: usize,
    x: &mut [u64],
) -> Cell
    requires readable { Readable (rows form) o.now index.now gone.now t a r.now }
    requires measured { (Measured m) × (from ≤ to) × (to ≤ line_count) × (length x.old ≡ set_len) }
    requires marks_value { marks.now ≡ marks_in index.now gone.now a.held r.now }
    ensures { TakenAll (ClearFrom from x.old)
        (came_of t a.held r.now (says_in (rows form) o.now index.now) m)
        (slice from to lines) x.old result x.new }
{
    let mut first = true;
    let mut second = true;
    let mut within = true;
    for i in from..to {
        if marks[i] != 0 {
            let c = take_line(form, a, o, index, gone, t, r, m, i, &mut *x);
            first = first & c.first;
            second = second & c.second;
            within = within & c.within;
        }
    }
    Cell {
        first,
        second,
        within,
    }
}

// The moof fields into the words x, which are 0, or 14 or 15. BMDT is left for later.
pub fn read_set(
    form: Form,
    t: Track,
    held: bool,
    o: &[u8],
    index: &[u64],
    r: &[u64],
    x: &mut [u64],
) -> Result<(), Refusal>
    requires telling { Telling (rows form) o.now index.now }
    requires r_len { (length r.now ≡ set_len) × (t.iv_size ≤ 16)
        × (held ≡ true → lawful t r.now ≡ true) × (x.old ≡ replicate set_len 0) }
    ensures { SetReadAs (rows form) t held r.now o.now index.now (number_in result)
        x.new }
{
    let mut gone = [0u64; ids::IDS];
    if !deletions::mark(form, o, index, r, &mut gone) {
        return Err(Refusal::UnlawfulSet);
    }
    let a = against::base_of(t, held, r);
    let coding = a.coding;
    let n = count_of(coding, index, a.was.count as u64).ok_or(Refusal::OutOfRange)?;
    x[lines::COUNT] = n;
    take_fields(form, a, o, index, &gone, t, r, n, x)
}

// The fields of n samples. Where none is sent and none stood, all lines are passed over at once; with several samples that is seldom so, and not asked.
fn take_fields(
    form: Form,
    a: Against,
    o: &[u8],
    index: &[u64],
    gone: &[u64],
    t: Track,
    r: &[u64],
    n: u64,
    x: &mut [u64],
) -> Result<(), Refusal>
    requires readable { Readable (rows form) o.now index.now gone.now t a r.now }
    requires n_le_samples_most { (n ≤ samples_most) × (count_reached t a.held r.now (says_in (rows form) o.now index.now) ≡ Some n)
        × (x.old ≡ set_words 0 n no_fields) }
    ensures { FieldsReadAs (rows form) t a.held r.now o.now index.now (number_in result)
        x.new }
{
    if n <= 1 {
        if none_sent(index) & (!a.held | none_stands(r)) {
            return bare_rules(t, n, index);
        }
    }
    take_standing(form, a, o, index, gone, t, r, n, x)
}

// The fields of n samples, of which some may stand. Id 11 comes first, since the lengths of ids 13 and 15 go by its sum. Which fields stand is worked
// out once, for the lines and for the rules of the set.
fn take_standing(
    form: Form,
    a: Against,
    o: &[u8],
    index: &[u64],
    gone: &[u64],
    t: Track,
    r: &[u64],
    n: u64,
    x: &mut [u64],
) -> Result<(), Refusal>
    requires readable { Readable (rows form) o.now index.now gone.now t a r.now }
    requires n_le_samples_most { (n ≤ samples_most) × (count_reached t a.held r.now (says_in (rows form) o.now index.now) ≡ Some n)
        × (x.old ≡ set_words 0 n no_fields) }
    ensures { FieldsReadAs (rows form) t a.held r.now o.now index.now (number_in result)
        x.new }
{
    let count = n as usize;
    let ivs = (t.iv_size / 8) as usize;
    let m = Measure { count, ivs, sum: 0 };
    let marks: &[u64] = &standing(index, gone, a.held, r);
    let b = take_lines(
        form, a, o, index, gone, marks, t, r, m, PAIRS, PAST_PAIRS, &mut *x,
    );
    let c = lawful::tally_of(t, x, x[lines::SUBSAMPLES], count);
    let e = take_lines(form, a, o, index, gone, marks, t, r, m, 0, PAIRS, &mut *x);
    finish_fields(form, a, o, index, gone, marks, t, r, m, e, b, c, x)
}

// What is asked of the fields up to id 11's, and then those behind it: id 11 came to b, its counts to c, and the fields before it to e.
fn finish_fields(
    form: Form,
    a: Against,
    o: &[u8],
    index: &[u64],
    gone: &[u64],
    marks: &[u64],
    t: Track,
    r: &[u64],
    m: Measure,
    e: Cell,
    b: Cell,
    c: Tally,
    x: &mut [u64],
) -> Result<(), Refusal>
    requires readable { Readable (rows form) o.now index.now gone.now t a r.now }
    requires marks_value { marks.now ≡ marks_in index.now gone.now a.held r.now }
    requires front_taken { FrontTaken t a.held r.now (says_in (rows form) o.now index.now) m e b c x.old }
    ensures { FieldsReadAs (rows form) t a.held r.now o.now index.now (number_in result)
        x.new }
{
    first_rules(index, e, b, c)?;
    let k = Measure {
        count: m.count,
        ivs: m.ivs,
        sum: c.sum,
    };
    finish_set(
        form,
        a,
        o,
        index,
        gone,
        marks,
        t,
        r,
        k,
        e.second & b.second,
        e.within,
        x,
    )
}

// The first two rules, 14 and 15: the fields before id 11 came to e, id 11 to b, and its counts to c.
fn first_rules(index: &[u64], e: Cell, b: Cell, c: Tally) -> Result<(), Refusal>
    requires { length index.now ≡ index_len }
    ensures { number_in result ≡ ladder (first_rungs index.now e b c) (λ j. j) 0 }
{
    if !(e.first & (b.first & brands_fit(index))) {
        return Err(Refusal::UnlawfulSet);
    }
    if !(b.within & (c.ok & (c.sum <= maxima::SUBSAMPLES))) {
        return Err(Refusal::OutOfRange);
    }
    Ok(())
}

// The fields behind id 11, and the rules of the set: `second` and `within` say what the fields before came to.
fn finish_set(
    form: Form,
    a: Against,
    o: &[u8],
    index: &[u64],
    gone: &[u64],
    marks: &[u64],
    t: Track,
    r: &[u64],
    m: Measure,
    second: bool,
    within: bool,
    x: &mut [u64],
) -> Result<(), Refusal>
    requires readable { Readable (rows form) o.now index.now gone.now t a r.now }
    requires measured { (Measured m) × (length x.old ≡ set_len) }
    requires marks_value { marks.now ≡ marks_in index.now gone.now a.held r.now }
    ensures { LastReadAs t a.held r.now
        (says_in (rows form) o.now index.now) m
        second within x.old (number_in result) x.new }
{
    let d = take_lines(
        form,
        a,
        o,
        index,
        gone,
        marks,
        t,
        r,
        m,
        PAST_PAIRS,
        lines::LINES,
        &mut *x,
    );
    let rules = rules::rules_ok(t, m.count as u64, marks);
    if !(second & (d.second & rules)) {
        return Err(Refusal::UnlawfulSet);
    }
    if !(within & (d.within & lawful::same_iv_size(t, x))) {
        return Err(Refusal::OutOfRange);
    }
    Ok(())
}
