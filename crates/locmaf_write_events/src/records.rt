// Records of events, each from its words.
// Letters: `t` the track, `k` how many, `c` a chunk's bytes.
ghost use Rattle.std.specs.Prelude.{◌≡◌, true, [], ◌+◌, ◌^◌, ◌≤◌, ◌<◌, ltb, length};
ghost use Rattle.laws.specs.Writes.{Wrote};
ghost use Rattle.wire.specs.Form.{rows, limit};
ghost use Rattle.wire.specs.Varint.{size_of};
ghost use Rattle.block_items.specs.Events.{enc_text, enc_event, enc_events};
ghost use Rattle.locmaf_write_events.specs.Records.{enc_marks, sent_at, sent_of, text_bytes, times_fit, EventWords, AllWords, EventIn, AllIn, words_bytes, all_bytes};
ghost use Rattle.locmaf_write_event_times.specs.Times.{time_for};
ghost use Rattle.event_value.specs.Events.{part};

use locmaf_write_event_times::clock::{scale_of, time_number};
use media::clocks::TrackTicks;
use track::Track;
use wire::form::Form;

// ---- counted

// A length and so many bytes.
fn text_bytes(form: Form, n: u64) -> usize
    requires { n < 2 ^ 32 }
    ensures { (result ≡ text_bytes (rows form) n) × (result < 2 ^ 33) }
{
    wire::varint::size(form, n) + n as usize
}

// The bytes of a time, which counts as the longest varint where it is too wide.
fn time_bytes(form: Form, t: Track, bmdt: TrackTicks, scale: u64, time: u64) -> usize
    ensures { result ≡ size_of (rows form) (time_for t bmdt.0 scale time) }
{
    let Some(z) = time_number(form, t, bmdt, scale, time) else {
        return wire::form::most(form);
    };
    wire::varint::size(form, z)
}

// The bytes of the record of the event whose words are lent. Here and below the words are those of one event, so that they are read at constant
// places.
fn record_bytes(form: Form, t: Track, bmdt: TrackTicks, event: &[u64]) -> usize
    requires { EventWords event.now 0 }
    ensures { (result ≡ words_bytes (rows form) t bmdt.0 event.now 0) × (result < 2 ^ 36) }
{
    let texts = text_bytes(form, event[event_value::SCHEME_LENGTH]);
    let value = text_bytes(form, event[event_value::VALUE_LENGTH]);
    let message = text_bytes(form, event[event_value::MESSAGE_LENGTH]);
    let scale = wire::varint::size(form, scale_of(t, event[event_value::TIMESCALE]));
    let time = time_bytes(
        form,
        t,
        bmdt,
        event[event_value::TIMESCALE],
        event[event_value::TIME],
    );
    let duration = wire::varint::size(form, event[event_value::DURATION]);
    let id = wire::varint::size(form, event[event_value::ID]);
    texts + (value + (scale + (time + (duration + (id + message)))))
}

// The bytes of the records of k events.
pub fn list_bytes(form: Form, t: Track, bmdt: TrackTicks, events: &[u64], k: usize) -> usize
    requires { AllWords events.now k }
    ensures { result ≡ all_bytes (rows form) t bmdt.0 events.now k 0 }
{
    let mut sum = 0;
    for i in 0..k {
        let p = event_value::WORDS * i;
        sum += record_bytes(form, t, bmdt, &events[p..p + event_value::WORDS]);
    }
    sum
}

// Whether the event's time fits into a varint. Its strings have no part in it.
fn time_fits(form: Form, t: Track, bmdt: TrackTicks, event: &[u64]) -> bool
    requires { EventWords event.now 0 }
    ensures { result ≡ ltb (sent_at t bmdt.0 [] event.now 0).time (limit (rows form)) }
{
    let scale = event[event_value::TIMESCALE];
    let time = event[event_value::TIME];
    time_number(form, t, bmdt, scale, time).is_some()
}

// Whether all times of k events do.
pub fn times_fit(form: Form, t: Track, bmdt: TrackTicks, events: &[u64], k: usize) -> bool
    requires { AllWords events.now k }
    ensures { result ≡ times_fit (rows form) (sent_of t bmdt.0 [] events.now k) }
{
    let mut ok = true;
    for i in 0..k {
        let p = event_value::WORDS * i;
        ok = ok & time_fits(form, t, bmdt, &events[p..p + event_value::WORDS]);
    }
    ok
}

// ---- written

// The length and the n bytes of c from a place on.
fn put_text(form: Form, c: &[u8], from: u64, n: u64, out: &mut [u8], at: usize) -> usize
    requires n_in_bounds { from + n ≤ length c.now }
    requires n_in_bounds_2 { at + length (enc_text (rows form) (part c.now from n)) ≤ length out.old }
    ensures { Wrote out.old at (enc_text (rows form) (part c.now from n))
        out.new result }
{
    let a = wire::varint::put(form, out, at, n);
    let start = from as usize;
    boxes::put::put_bytes(out, a, &c[start..start + n as usize])
}

// The four numbers in the middle of the event's record.
fn put_marks(
    form: Form,
    t: Track,
    bmdt: TrackTicks,
    event: &[u64],
    out: &mut [u8],
    at: usize,
) -> usize
    requires event_words { EventWords event.now 0 }
    requires event_bound { (sent_at t bmdt.0 [] event.now 0).time < limit (rows form) }
    requires event_in_bounds { at + length (enc_marks (rows form) (sent_at t bmdt.0 [] event.now 0)) ≤ length out.old }
    ensures { Wrote out.old at
        (enc_marks (rows form) (sent_at t bmdt.0 [] event.now 0)) out.new result }
{
    let scale = event[event_value::TIMESCALE];
    let time = event[event_value::TIME];
    let duration = event[event_value::DURATION];
    let id = event[event_value::ID];
    let z = time_number(form, t, bmdt, scale, time).unwrap();
    let a = wire::varint::put(form, out, at, scale_of(t, scale));
    let b = wire::varint::put(form, out, a, z);
    let d = wire::varint::put(form, out, b, duration);
    wire::varint::put(form, out, d, id)
}

// The event's record.
fn put_record(
    form: Form,
    t: Track,
    bmdt: TrackTicks,
    c: &[u8],
    event: &[u64],
    out: &mut [u8],
    at: usize,
) -> usize
    requires event_words { EventWords event.now 0 × EventIn c.now event.now 0 }
    requires event_bound { (sent_at t bmdt.0 c.now event.now 0).time < limit (rows form) }
    requires event_in_bounds { at + length (enc_event (rows form) (sent_at t bmdt.0 c.now event.now 0)) ≤ length out.old }
    ensures { Wrote out.old at
        (enc_event (rows form) (sent_at t bmdt.0 c.now event.now 0)) out.new result }
{
    let a = put_text(
        form,
        c,
        event[event_value::SCHEME],
        event[event_value::SCHEME_LENGTH],
        out,
        at,
    );
    let b = put_text(
        form,
        c,
        event[event_value::VALUE],
        event[event_value::VALUE_LENGTH],
        out,
        a,
    );
    let d = put_marks(form, t, bmdt, event, out, b);
    put_text(
        form,
        c,
        event[event_value::MESSAGE],
        event[event_value::MESSAGE_LENGTH],
        out,
        d,
    )
}

// The records of k events, each of whose times fits.
pub fn put_records(
    form: Form,
    t: Track,
    bmdt: TrackTicks,
    c: &[u8],
    events: &[u64],
    k: usize,
    out: &mut [u8],
    at: usize,
) -> usize
    requires all_words { AllWords events.now k × AllIn c.now events.now k }
    requires k_value { times_fit (rows form) (sent_of t bmdt.0 c.now events.now k) ≡ true }
    requires k_in_bounds { at + length (enc_events (rows form) (sent_of t bmdt.0 c.now events.now k)) ≤ length out.old }
    ensures { Wrote out.old at
        (enc_events (rows form) (sent_of t bmdt.0 c.now events.now k)) out.new result }
{
    let mut p = at;
    for i in 0..k {
        let from = event_value::WORDS * i;
        p = put_record(
            form,
            t,
            bmdt,
            c,
            &events[from..from + event_value::WORDS],
            out,
            p,
        );
    }
    p
}
