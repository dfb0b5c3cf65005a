// A chunk read: every rule in the order of the numbers, each step over the whole chunk before the next; then its set.
// Letters: `t` the track, `c` a chunk's bytes, `x` the words of the new set, `f` the boxes inside the `moof`, `d` the defaults of the `tfhd`.
ghost use Rattle.std.specs.Prelude.{◌≡◌, true, ◌+◌, ◌*◌, ◌≤◌, length, replicate, take, drop};
ghost use Rattle.wire.specs.Form.{rows};
ghost use Rattle.event_value.specs.Events.{event_words, events_len};
ghost use Rattle.field_table.specs.Lines.{set_len};
ghost use Rattle.cmaf_read_tree.specs.Whole.{whole};
ghost use Rattle.cmaf_read_shape.specs.Top.{top_of};
ghost use Rattle.cmaf_read_shape.specs.Inner.{inner_of};
ghost use Rattle.cmaf_read_prelude.specs.Prft.{prft_ok};
ghost use Rattle.cmaf_read_senc.specs.Entries.{subsamples};
ghost use Rattle.cmaf_read_boxes.specs.Right.{boxes_ok};
ghost use Rattle.cmaf_read_rules.specs.Rules.{Right};
ghost use Rattle.cmaf_read_set.specs.Gatherable.{Gatherable};
ghost use Rattle.cmaf_read_chunk.specs.Chunks.{taken_as, CountedAs, SettledAs, ReadAs};

use crate::maxima;
use byte_parts::Part;
use cmaf_read_boxes::right;
use cmaf_read_moof::defaults;
use cmaf_read_shape::inner::Inner;
use cmaf_read_shape::top::Top;
use constants::maxima::EVENT_BYTES;
use event_value::ALL_WORDS;
use prft_value::Prft;
use refusal::Refusal;
use track::Track;
use wire::form::Form;

// What a chunk has beside its set and its events: the `prft`, how many events, the bytes of their records, what stands in the `styp` (no bytes: no box),
// and the payload.
#[derive(Clone, Copy)]
pub struct Chunk {
    pub prft: Prft,
    pub events: usize,
    pub list: usize,
    pub brands: Part,
    pub payload: Part,
}

fn taken(c: &[u8], top: Top, list: usize) -> Chunk
    requires { (top ≡ top_of c.now) × (prft_ok c.now top.prft ≡ true) }
    ensures { result ≡ taken_as c.now list }
{
    let styp = top.styp;
    let prft = top.prft;
    let mdat = top.mdat;
    Chunk {
        prft: cmaf_read_prelude::prft::prft_of(c, prft),
        events: top.events,
        list,
        brands: cmaf_read_shape::parts::body(styp),
        payload: cmaf_read_shape::parts::body(mdat),
    }
}

// The bytes of the events' records, if a chunk whose boxes are right keeps its maxima. The words of the events are kept on the way.
fn count(
    form: Form,
    t: Track,
    c: &[u8],
    top: Top,
    f: Inner,
    pairs: u64,
    events: &mut [u64],
) -> Option<usize>
    requires top_value { (top ≡ top_of c.now) × (f ≡ inner_of c.now top.moof) }
    requires c_value { (boxes_ok t c.now ≡ true) × (length events.old ≡ events_len) }
    requires pairs_value { pairs ≡ subsamples t c.now f.senc }
    ensures { CountedAs (rows form) t c.now result events.new }
{
    if !maxima::counts_ok(c, top, f, pairs) {
        return None;
    }
    let emsgs = top.emsgs;
    let tfdt = f.tfdt;
    cmaf_read_prelude::emsg::keep_events(c, emsgs.at, top.events, &mut *events);
    let bmdt = cmaf_read_moof::headers::bmdt_of(c, tfdt);
    let list = locmaf_write_events::records::list_bytes(form, t, bmdt, events, top.events);
    if (EVENT_BYTES as usize) < list {
        return None;
    }
    Some(list)
}

// Whether the rules hold, of a chunk that keeps its maxima and whose events have their words; where they do, its set into words that are zeros. Both go
// by the defaults of the `tfhd`, which are read here and no sooner: the loops of `count` over the events would hold them all along.
fn settle(t: Track, c: &[u8], top: Top, f: Inner, words: &mut [u64]) -> bool
    requires right { Right t c.now top f × Gatherable t c.now f }
    requires events_bound { (event_words * top.events ≤ events_len) × (length words.old ≡ events_len + set_len)
        × (drop events_len words.old ≡ replicate set_len 0) }
    ensures { SettledAs t c.now top f (take events_len words.old) result
        (drop events_len words.new)
        × (take events_len words.new ≡ take events_len words.old) }
{
    let tfhd = f.tfhd;
    let d = defaults::defaults_of(t, c, tfhd);
    if !cmaf_read_rules::all::rules_ok(t, c, top, f, d, &words[..ALL_WORDS]) {
        return false;
    }
    cmaf_read_set::set::put_set(t, c, f, d, &mut words[ALL_WORDS..]);
    true
}

// What is asked of a chunk whose boxes are right, and then read of it.
fn read_rest(
    form: Form,
    t: Track,
    c: &[u8],
    top: Top,
    f: Inner,
    pairs: u64,
    words: &mut [u64],
) -> Result<Chunk, Refusal>
    requires iv_size_bound { (t.iv_size ≤ 16) × (whole c.now ≡ true) × (boxes_ok t c.now ≡ true) }
    requires top_value { (top ≡ top_of c.now) × (f ≡ inner_of c.now top.moof) }
    requires pairs_value { pairs ≡ subsamples t c.now f.senc }
    requires words_value { words.old ≡ replicate (events_len + set_len) 0 }
    ensures { ReadAs (rows form) t c.now result (take events_len words.new)
        (drop events_len words.new) }
{
    let list = count(form, t, c, top, f, pairs, &mut words[..ALL_WORDS]).ok_or(
        Refusal::PastMaximum,
    )?;
    if !settle(t, c, top, f, &mut *words) {
        return Err(Refusal::BrokenRule);
    }
    Ok(taken(c, top, list))
}

// A chunk for a track. The words are those of its events and behind them those of its set, zeros before; they count only where nothing is refused.
pub fn read_chunk(form: Form, t: Track, c: &[u8], words: &mut [u64]) -> Result<Chunk, Refusal>
    requires iv_size_bound { t.iv_size ≤ 16 }
    requires words_value { words.old ≡ replicate (events_len + set_len) 0 }
    ensures { ReadAs (rows form) t c.now result (take events_len words.new)
        (drop events_len words.new) }
{
    let top = cmaf_read_shape::top::top_of(c);
    let moof = top.moof;
    let f = cmaf_read_shape::inner::inner_of(c, moof);
    if !right::order_ok(c, top, f) {
        return Err(right::unordered(c));
    }
    let pairs = right::pairs_in(t, c, top, f).ok_or(Refusal::WrongBox)?;
    read_rest(form, t, c, top, f, pairs, words)
}
