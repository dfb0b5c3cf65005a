// The values of the events: a time on the track's clock is a distance from BMDT, one on the event's own clock is carried.
// Letters: `t` the track, `o` an object's bytes, `k` how many.
ghost use Rattle.std.specs.Prelude.{◌≡◌, ◌≤◌, length, get_or};
ghost use Rattle.std.proofs.Math.Seq.{slice};
ghost use Rattle.event_value.specs.Events.{event_words, events_len, event_scheme, event_scheme_len, event_value, event_value_len, Inside, EventsFit};
ghost use Rattle.locmaf_read_events.specs.Events.{rebuilt, timed, no_zero, EventRead, EventsRead};

use media::clocks::TrackTicks;
use track::Track;
use wire::zigzag::Coding;

const U32: u64 = 0xffff_ffff;

const U64: u64 = 0xffff_ffff_ffff_ffff;

// Whether none of the bytes from a place up to another is 0.
fn no_zero(o: &[u8], from: usize, to: usize) -> bool
    requires { to ≤ length o.now }
    ensures { result ≡ no_zero (slice from to o.now) }
{
    let mut ok = true;
    for i in from..to {
        ok = ok & (o[i] != 0);
    }
    ok
}

// The event's timescale and time become those of its box. Here and below the words are those of one event, so that they are read at constant
// places.
fn rebuild(t: Track, bmdt: TrackTicks, event: &mut [u64]) -> bool
    requires { event_words ≤ length event.old }
    ensures value { result ≡ timed bmdt.0 event.old }
    ensures event_after { event.new ≡ rebuilt t bmdt.0 event.old }
{
    if event[event_value::TIMESCALE] != 0 {
        return true;
    }
    let Some(time) = bmdt.reach(Coding::Delta, U64, event[event_value::TIME]) else {
        return false;
    };
    event[event_value::TIMESCALE] = t.timescale as u64;
    event[event_value::TIME] = time.0;
    true
}

// Whether the event's values are in range; it is rebuilt.
fn event_ok(t: Track, bmdt: TrackTicks, o: &[u8], event: &mut [u64]) -> bool
    requires event_words_in_bounds { event_words ≤ length event.old }
    requires inside { Inside o.now (get_or event.old event_scheme 0) (get_or event.old event_scheme_len 0) }
    requires inside_2 { Inside o.now (get_or event.old event_value 0) (get_or event.old event_value_len 0) }
    ensures { EventRead t bmdt.0 o.now event.old result event.new }
{
    let a = event[event_value::SCHEME] as usize;
    let b = event[event_value::VALUE] as usize;
    let strings = no_zero(o, a, a + event[event_value::SCHEME_LENGTH] as usize)
        & no_zero(o, b, b + event[event_value::VALUE_LENGTH] as usize);
    let numbers = (event[event_value::TIMESCALE] <= U32)
        & ((event[event_value::DURATION] <= U32) & (event[event_value::ID] <= U32));
    rebuild(t, bmdt, &mut *event) & (strings & numbers)
}

// Whether the first k events' values are in range; each is rebuilt.
pub fn events_ok(t: Track, bmdt: TrackTicks, o: &[u8], events: &mut [u64], k: usize) -> bool
    requires events_len { length events.old ≡ events_len }
    requires events_fit { EventsFit o.now events.old k }
    ensures { EventsRead t bmdt.0 o.now events.old k result events.new }
{
    let mut ok = true;
    for i in 0..k {
        let p = event_value::WORDS * i;
        ok = ok & event_ok(t, bmdt, o, &mut events[p..p + event_value::WORDS]);
    }
    ok
}
