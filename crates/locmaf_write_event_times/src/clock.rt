// An event is on the track's clock exactly where its timescale is the track's, and else on its own.
// Letters: `t` the track.
ghost use Rattle.std.specs.Prelude.{◌≡◌};
ghost use Rattle.wire.specs.Form.{rows};
ghost use Rattle.wire.specs.Zigzag.{fitted};
ghost use Rattle.locmaf_write_event_times.specs.Times.{scale_for, clock_of, time_for};

use media::clocks::{EventTicks, EventTime, TrackTicks};
use track::Track;
use wire::form::Form;
use wire::zigzag::Coding;

// The timescale in a record: 0 exactly for the track's.
pub fn scale_of(t: Track, scale: u64) -> u64
    ensures { result ≡ scale_for t scale }
{
    if scale == t.timescale as u64 {
        return 0;
    }
    scale
}

// The time of an event, which is on the track's clock exactly where its timescale is the track's.
fn time_of(t: Track, scale: u64, time: u64) -> EventTime
    ensures { result ≡ clock_of t scale time }
{
    if scale == t.timescale as u64 {
        return EventTime::Track(TrackTicks(time));
    }
    EventTime::Own(EventTicks(time))
}

// The time in a record: on the track's clock the distance from BMDT, on the event's own clock itself.
pub fn time_number(form: Form, t: Track, bmdt: TrackTicks, scale: u64, time: u64) -> Option<u64>
    ensures { result ≡ fitted (rows form) (time_for t bmdt.0 scale time) }
{
    let at = time_of(t, scale, time);
    match at {
        EventTime::Track(ticks) => ticks.code(form, Coding::Delta, bmdt),
        EventTime::Own(ticks) => ticks.code(form),
    }
}
