// The base media decode time that an object gives.
// Letters: `e` the BMDT that is expected.
ghost use Rattle.std.specs.Prelude.{◌≡◌, List, ℕ, length};
ghost use Rattle.track.specs.declared.Track.{Track};
ghost use Rattle.locmaf_read_said.specs.Said.{scalar_in};
ghost use Rattle.locmaf_read_index.specs.Places.{index_len};
ghost use Rattle.effective.specs.Expected.{next_time, expected_by};
ghost use Rattle.locmaf_read_times.specs.Bmdt.{bmdt_of, BmdtAs};

use effective::expected::Expected;
use locmaf_read_index::places;
use media::clocks::TrackTicks;

// What the object sends, or what is expected behind the reference: from a sum past 64 bits none is derived.
pub fn bmdt_of(index: &[u64], e: Expected) -> Option<TrackTicks>
    requires { length index.now ≡ index_len }
    ensures { (t : Track) (r : List ℕ) → e ≡ expected_by (next_time t r)
        → BmdtAs result (bmdt_of t (scalar_in index.now 10) r) }
{
    if index[places::BMDT] != 0 {
        return Some(TrackTicks(index[places::BMDT_NUMBER]));
    }
    if e.past != 0 {
        return None;
    }
    Some(TrackTicks(e.time))
}
