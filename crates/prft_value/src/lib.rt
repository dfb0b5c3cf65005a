// A producer reference time as a value, whether it came off a box or off the wire.
#![tactic(auto)]

ghost use Rattle.std.specs.Prelude.{◌≡◌};
ghost use Rattle.prft_value.specs.Prft.{absent_prft};

use media::clocks::{NtpUnits, TrackTicks};

// A producer reference time: whether there is one, when, at which media time, and the box's version and flags.
#[derive(Clone, Copy)]
pub struct Prft {
    pub stands: bool,
    pub ntp: NtpUnits,
    pub media: TrackTicks,
    pub version: u64,
    pub flags: u64,
}

impl Prft {
    // No producer reference time.
    pub fn none() -> Self
        ensures { result ≡ absent_prft }
    {
        Prft {
            stands: false,
            ntp: NtpUnits(0),
            media: TrackTicks(0),
            version: 0,
            flags: 0,
        }
    }
}
