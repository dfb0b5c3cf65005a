// Which ids may stand in an object, and the number of a block that was indexed.
// Letters: `i` what the index came to.
ghost use Rattle.std.specs.Prelude.{◌≡◌, length};
ghost use Rattle.refusal.specs.Numbers.{number_in};
ghost use Rattle.locmaf_read_index.specs.Places.{index_len};
ghost use Rattle.locmaf_read_head.specs.Ids.{ids_ok, stands_in, index_number};

use locmaf_read_index::index::Indexed;
use locmaf_read_index::places;
use refusal::Refusal;

// Whether the ids that stand, by the index of the block, may stand together; `kept` says that the current full object had a prft.
pub fn ids_ok(delta: bool, kept: bool, index: &[u64]) -> bool
    requires { length index.now ≡ index_len }
    ensures { result ≡ ids_ok delta kept (stands_in index.now) }
{
    let ntp = index[places::NTP] != 0;
    let media = index[places::MEDIA_TIME] != 0;
    let others = (index[places::VERSION] != 0) | (index[places::PRFT_FLAGS] != 0);
    let brands = index[places::BRANDS] != 0;
    let deletions = index[places::DELETIONS] != 0;
    let both = (index[places::BMDT] != 0) & (index[places::SAMPLES] != 0);
    let here = if delta {
        !brands & (!ntp | kept)
    } else {
        !deletions & both
    };
    (ntp == media) & ((ntp | !others) & here)
}

// Why a block that was indexed is refused, as far as the index tells it: 12 where something is cut, 13 where an id is unknown or stands twice.
pub fn readable(i: Indexed) -> Result<(), Refusal>
    ensures { number_in result ≡ index_number i }
{
    match i {
        Indexed::Cut => Err(Refusal::Unreadable),
        Indexed::Stray => Err(Refusal::WrongIds),
        Indexed::Clean => Ok(()),
    }
}
