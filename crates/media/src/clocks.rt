// The three clocks. Each time is a value of its own clock's kind, and no function takes or gives two kinds but as the time of an event, which is on
// one of two clocks: nothing adds them.
// Letters: `z` a number on the wire.
ghost use Rattle.std.specs.Prelude.{◌≡◌};
ghost use Rattle.wire.specs.Form.{rows};
ghost use Rattle.wire.specs.Zigzag.{code_of};
ghost use Rattle.media.specs.Clocks.{track_at, ntp_at};

use wire::form::Form;
use wire::zigzag::Coding;

// A time in ticks of the track's timescale.
#[derive(Clone, Copy)]
pub struct TrackTicks(pub u64);

// A time in ticks of an event's own timescale: it is only ever carried.
#[derive(Clone, Copy)]
pub struct EventTicks(pub u64);

// A time in units of NTP, a second being 2^32 of them.
#[derive(Clone, Copy)]
pub struct NtpUnits(pub u64);

// The time of an event, which is on the track's clock or on its own.
#[derive(Clone, Copy)]
pub enum EventTime {
    Track(TrackTicks),
    Own(EventTicks),
}

impl TrackTicks {
    // The number on the wire for this time: plain, or as its distance from another, as from BMDT.
    pub fn code(self, form: Form, coding: Coding, from: TrackTicks) -> Option<u64>
        ensures { result ≡ code_of (rows form) coding from.0 self.0 }
    {
        wire::zigzag::code(form, coding, from.0, self.0)
    }

    // The time that a number on the wire gives: plain, or as its distance from this one. A media time has 32 bits in version 0, hence the bound.
    pub fn reach(self, coding: Coding, bound: u64, z: u64) -> Option<TrackTicks>
        ensures { result ≡ track_at coding self.0 bound z }
    {
        let v = wire::zigzag::reach(coding, self.0, bound, z)?;
        Some(TrackTicks(v))
    }
}

impl EventTicks {
    // The number on the wire for this time: itself.
    pub fn code(self, form: Form) -> Option<u64>
        ensures { result ≡ code_of (rows form) Coding.Plain 0 self.0 }
    {
        wire::zigzag::code(form, Coding::Plain, 0, self.0)
    }
}

impl NtpUnits {
    // The number on the wire for this time: plain, or as its distance from another.
    pub fn code(self, form: Form, coding: Coding, since: NtpUnits) -> Option<u64>
        ensures { result ≡ code_of (rows form) coding since.0 self.0 }
    {
        wire::zigzag::code(form, coding, since.0, self.0)
    }

    // The time that a number on the wire gives: plain, or as its distance from this one.
    pub fn reach(self, coding: Coding, z: u64) -> Option<NtpUnits>
        ensures { result ≡ ntp_at coding self.0 z }
    {
        let v = wire::zigzag::reach(coding, self.0, u64::MAX, z)?;
        Some(NtpUnits(v))
    }
}
