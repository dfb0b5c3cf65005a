// What an object is refused for: every rule in its order, with nothing lent changed. What it works out on the way is in the scratch words.
// Letters: `F` the rows of a form, `t` the track, `o` an object's bytes, `p` where the block stands, `s` the words of a share, `x` the words of the new set.
ghost use Rattle.std.specs.Prelude.{◌≡◌, true, List, ℕ, ◌+◌, ◌-◌, ◌≤◌, ◌<◌, length, get_or, replicate, take, drop};
ghost use Rattle.refusal.specs.Numbers.{number_in};
ghost use Rattle.constants.specs.Ids.{id_count};
ghost use Rattle.constants.specs.Maxima.{payload_most};
ghost use Rattle.wire.specs.declared.form.Row.{Row};
ghost use Rattle.wire.specs.Form.{rows};
ghost use Rattle.field_table.specs.Lines.{set_len};
ghost use Rattle.event_value.specs.Events.{events_len};
ghost use Rattle.locmaf_read_index.specs.Places.{index_len};
ghost use Rattle.told_sizes.specs.Sums.{Summable};
ghost use Rattle.effective.specs.Expected.{next_time, expected_by};
ghost use Rattle.track.specs.declared.Track.{Track};
ghost use Rattle.counters.specs.Follow.{Behind};
ghost use Rattle.share_words.specs.Share.{share_len, last_at, set_at};
ghost use Rattle.slots.specs.Share.{track_of, expected_in};
ghost use Rattle.receiver.specs.Judge.{part_in, Judgeable, SplitAs, SetRead, BlockReadAs};
ghost use Rattle.receiver.specs.Judge.{ValuesTold, sums_in, Testable, TestedAs, left_in, IvsAs, AllJudged, ValuesJudged};

use byte_parts::Part;
use constants::{ids, maxima};
use event_value::ALL_WORDS;
use field_table::lines;
use locmaf_read_head::head::Place;
use locmaf_read_index::places;
use media::clocks::TrackTicks;
use prft_value::Prft;
use refusal::Refusal;
use share_words::share;
use track::Track;
use wire::form::Form;

// What the front is made of beside the scratch words: the prft, how many events, and the brands.
#[derive(Clone, Copy)]
pub struct Judged {
    pub prft: Prft,
    pub events: usize,
    pub brands: Part,
}

// The bytes that stand for an odd id; none where it doesn't stand.
fn part_of(index: &[u64], id: usize) -> Part
    requires { (length index.now ≡ index_len) × (id < id_count) }
    ensures { result ≡ part_in index.now id }
{
    let k = id * places::EACH;
    if index[k] == 0 {
        return Part { at: 0, len: 0 };
    }
    Part {
        at: (index[k] - 1) as usize,
        len: index[k + places::NUMBER] as usize,
    }
}

// What isn't a moof field nor of a single event, and whether all of it is within its maxima.
#[derive(Clone, Copy)]
struct Values {
    ok: bool,
    bmdt: TrackTicks,
    prft: Prft,
    brands: Part,
}

// The values of an object with so many bytes of payload and so many events. A BMDT past 64 bits counts as the greatest that they hold, which is past its
// maximum too.
fn values_of(delta: bool, payload: usize, events: usize, s: &[u64], index: &[u64]) -> Values
    requires { (length index.now ≡ index_len) × (length s.now ≡ share_len) }
    ensures { (t : Track) → expected_in s.now ≡ expected_by (next_time t (drop set_at s.now))
        → ValuesTold t delta payload events s.now index.now result }
{
    let b = locmaf_read_times::bmdt::bmdt_of(index, slots::lawful::expected_of(s));
    let bmdt = b.unwrap_or(TrackTicks(u64::MAX));
    let told = locmaf_read_times::prft::prft_of(delta, index, s);
    let brands = part_of(index, ids::BRANDS as usize);
    let most = (payload <= maxima::PAYLOAD as usize)
        & ((brands.len <= maxima::BRAND_BYTES)
            & ((events <= maxima::EVENTS) & (index[places::EVENTS_LENGTH] <= maxima::EVENT_BYTES)));
    let prft = told.prft;
    let ok = (bmdt.0 <= maxima::NUMBER) & (told.ok & most);
    Values {
        ok,
        bmdt,
        prft,
        brands,
    }
}

// The block split: 12, 13.
fn split(
    form: Form,
    o: &[u8],
    p: Place,
    s: &[u64],
    index: &mut [u64],
    events: &mut [u64],
) -> Result<(), Refusal>
    requires judgeable { Judgeable (rows form) o.now s.now (track_of s.now) p }
    requires index_value { (index.old ≡ replicate index_len 0) × (events.old ≡ replicate events_len 0) }
    ensures { SplitAs (rows form) o.now s.now (number_in result) index.new
        events.new }
{
    let i = locmaf_read_index::index::index(form, o, p.at, p.end, &mut *index, &mut *events);
    locmaf_read_head::ids::readable(i)?;
    if locmaf_read_head::ids::ids_ok(p.delta, s[share::PRFT] != 0, index) {
        return Ok(());
    }
    Err(Refusal::WrongIds)
}

// The block split and its set read: 12 to 15.
fn read_block(
    form: Form,
    t: Track,
    o: &[u8],
    p: Place,
    s: &[u64],
    index: &mut [u64],
    words: &mut [u64],
) -> Result<(), Refusal>
    requires judgeable { Judgeable (rows form) o.now s.now t p }
    requires index_value { (index.old ≡ replicate index_len 0) × (words.old ≡ replicate (events_len + set_len) 0) }
    ensures { BlockReadAs (rows form) o.now s.now t p (number_in result) index.new
        (take events_len words.new) (drop events_len words.new) }
{
    split(form, o, p, s, &mut *index, &mut words[..ALL_WORDS])?;
    let r = &s[share::SET..];
    locmaf_read_set::read::read_set(form, t, p.delta, o, index, r, &mut words[ALL_WORDS..])
}

// An object whose head is read.
pub fn judge(
    form: Form,
    t: Track,
    o: &[u8],
    p: Place,
    s: &[u64],
    words: &mut [u64],
) -> Result<Judged, Refusal>
    requires judgeable { Judgeable (rows form) o.now s.now t p }
    requires words_value { words.old ≡ replicate (events_len + set_len) 0 }
    ensures { AllJudged (rows form) o.now s.now result (take events_len words.new)
        (drop events_len words.new) }
{
    let mut index = [0u64; places::INDEX];
    read_block(form, t, o, p, s, &mut index, &mut *words)?;
    judge_values(t, o, p, s, &index, words)
}

// From the values of what isn't a moof field on. What stands on the wire is in the scratch words by now, so that no form is asked for: the promise
// is for every form that they were read by.
fn judge_values(
    t: Track,
    o: &[u8],
    p: Place,
    s: &[u64],
    index: &[u64],
    words: &mut [u64],
) -> Result<Judged, Refusal>
    requires set_read { (F : List Row) × SetRead F o.now s.now t p index.now
        (take events_len words.old) (drop events_len words.old) }
    requires words_len { length words.old ≡ events_len + set_len }
    ensures { (F : List Row) → SetRead F o.now s.now t p index.now
        (take events_len words.old) (drop events_len words.old)
        → ValuesJudged F o.now s.now result
        (take events_len words.new) (drop events_len words.new) }
{
    let k = index[places::EVENTS_COUNT] as usize;
    let payload = o.len() - p.end;
    let v = values_of(p.delta, payload, k, s, index);
    values_hold(t, o, v, payload as u64, &mut *words, k)?;
    derive_ivs(t, p.delta, s, index, &mut words[ALL_WORDS..])?;
    let prft = v.prft;
    let brands = v.brands;
    Ok(Judged {
        prft,
        events: k,
        brands,
    })
}

// The rules on values and sums: 15, 16. BMDT goes into the set's words on the way.
fn values_hold(
    t: Track,
    o: &[u8],
    v: Values,
    payload: u64,
    words: &mut [u64],
    k: usize,
) -> Result<(), Refusal>
    requires testable { Testable o.now v payload (take events_len words.old) k (drop events_len words.old) }
    requires words_len { length words.old ≡ events_len + set_len }
    ensures { TestedAs t o.now v payload
        (take events_len words.old) k (drop events_len words.old)
        (number_in result) (take events_len words.new) (drop events_len words.new) }
{
    if !v.ok {
        return Err(Refusal::OutOfRange);
    }
    let bmdt = v.bmdt;
    if !locmaf_read_events::events::events_ok(t, bmdt, o, &mut words[..ALL_WORDS], k) {
        return Err(Refusal::OutOfRange);
    }
    words[ALL_WORDS + lines::BMDT] = bmdt.0;
    if !sums_ok(t, &words[ALL_WORDS..], payload) {
        return Err(Refusal::SumsDisagree);
    }
    Ok(())
}

// The IVs of the set x, where they were left out, into the room that it has for them: 21 if one passes its size.
fn derive_ivs(t: Track, delta: bool, s: &[u64], index: &[u64], x: &mut [u64]) -> Result<(), Refusal>
    requires s_len { (length s.now ≡ share_len) × (length index.now ≡ index_len) × (length x.old ≡ set_len) }
    requires behind { left_in delta s.now index.now x.old ≡ true
        → Behind t (get_or s.now last_at 0) (drop set_at s.now) x.old }
    ensures { (payload : ℕ)
        → IvsAs t delta s.now index.now x.old payload (number_in result) x.new }
{
    if x[lines::IVS] == 0 {
        return Ok(());
    }
    if !delta | (index[places::IVS] != 0) | (s[share::SET + lines::IVS] == 0) {
        return Ok(());
    }
    if counters::follow::derive(t, s[share::LAST], &s[share::SET..], x) {
        return Ok(());
    }
    Err(Refusal::IvPastSize)
}

// The sizes and the protected sums.
fn sums_ok(t: Track, x: &[u64], payload: u64) -> bool
    requires { (Summable x.now) × (payload ≤ payload_most) }
    ensures { result ≡ sums_in t x.now payload }
{
    if !effective::sums::sizes_ok(t, x, payload) {
        return false;
    }
    effective::sums::protected_ok(t, x, payload)
}
