// The producer reference time that an object gives.
// Letters: `s` the words of a share.
ghost use Rattle.std.specs.Prelude.{◌≡◌, cond, ℕ, List, Some, ◌-◌, ◌^◌, ◌<◌, length};
ghost use Rattle.constants.specs.Ids.{id_count};
ghost use Rattle.share_words.specs.Share.{share_len};
ghost use Rattle.locmaf_read_index.specs.Places.{index_len};
ghost use Rattle.media.specs.Clocks.{as_track, as_ntp};
ghost use Rattle.locmaf_read_said.specs.Said.{scalar_in};
ghost use Rattle.locmaf_read_times.specs.Prft.{no_prft, told_by, number_for, prft_of};
ghost use Rattle.prft_value.specs.Prft.{media_most};
ghost use Rattle.field_rules.specs.Fields.{coding_for};

use constants::ids;
use locmaf_read_index::places;
use media::clocks::{NtpUnits, TrackTicks};
use prft_value::Prft;
use share_words::share;
use wire::zigzag::Coding;

// A time, or that a number of it is outside its range.
#[derive(Clone, Copy)]
pub struct Told {
    pub ok: bool,
    pub prft: Prft,
}

fn none(ok: bool) -> Told
    ensures { result ≡ no_prft ok }
{
    Told {
        ok,
        prft: Prft::none(),
    }
}

// What a number of the object is read against: in a delta the share's number; in a full object it is plain, and its absence has a meaning.
fn base<T: Copy>(delta: bool, share: T, plain: T) -> (Coding, T)
    ensures { result ≡ (coding_for delta, cond delta share plain) }
{
    if delta {
        (Coding::Delta, share)
    } else {
        (Coding::Plain, plain)
    }
}

// The version or the flags of the object, or what they are read against where it sends none.
fn number_for(
    delta: bool,
    index: &[u64],
    id: usize,
    share: u64,
    plain: u64,
    bound: u64,
) -> Option<u64>
    requires { (length index.now ≡ index_len) × (id < id_count) }
    ensures { result ≡ number_for delta (scalar_in index.now) id share plain bound }
{
    let (coding, kept) = base(delta, share, plain);
    if index[id * places::EACH] == 0 {
        return Some(kept);
    }
    wire::zigzag::reach(
        coding,
        kept,
        bound,
        index[id * places::EACH + places::NUMBER],
    )
}

fn media_most(version: u64) -> u64
    ensures { result ≡ media_most version }
{
    if version == 0 {
        0xffff_ffff
    } else {
        0xffff_ffff_ffff_ffff
    }
}

// ---- each time on its own clock, in the same way

fn ntp_for(delta: bool, index: &[u64], share: NtpUnits) -> Option<NtpUnits>
    requires { length index.now ≡ index_len }
    ensures { result ≡ as_ntp (number_for delta (scalar_in index.now) 18 share.0 0 (2 ^ 64 - 1)) }
{
    let (coding, kept) = base(delta, share, NtpUnits(0));
    if index[places::NTP] == 0 {
        return Some(kept);
    }
    kept.reach(coding, index[places::NTP_NUMBER])
}

fn media_for(delta: bool, index: &[u64], share: TrackTicks, bound: u64) -> Option<TrackTicks>
    requires { length index.now ≡ index_len }
    ensures { result ≡ as_track (number_for delta (scalar_in index.now) 20 share.0 0 bound) }
{
    let (coding, kept) = base(delta, share, TrackTicks(0));
    if index[places::MEDIA_TIME] == 0 {
        return Some(kept);
    }
    kept.reach(coding, bound, index[places::MEDIA_TIME_NUMBER])
}

// The prft of an object that sends one, or none where a number of it is outside its range. How far the media time may go depends on the version.
fn sent(delta: bool, index: &[u64], s: &[u64]) -> Option<Prft>
    requires { (length index.now ≡ index_len) × (length s.now ≡ share_len) }
    ensures { (zs : List ℕ) → scalar_in index.now 18 ≡ Some zs
        → told_by result ≡ prft_of delta (scalar_in index.now) s.now }
{
    let version = number_for(delta, index, ids::VERSION as usize, s[share::VERSION], 1, 1)?;
    let flags = number_for(
        delta,
        index,
        ids::PRFT_FLAGS as usize,
        s[share::PRFT_FLAGS],
        0,
        0xff_ffff,
    )?;
    let ntp = ntp_for(delta, index, NtpUnits(s[share::NTP]))?;
    let most = media_most(version);
    let media = media_for(delta, index, TrackTicks(s[share::MEDIA_TIME]), most)?;
    Some(Prft {
        stands: true,
        ntp,
        media,
        version,
        flags,
    })
}

// The prft of an object: in a delta against the one that the share keeps.
pub fn prft_of(delta: bool, index: &[u64], s: &[u64]) -> Told
    requires { (length index.now ≡ index_len) × (length s.now ≡ share_len) }
    ensures { result ≡ prft_of delta (scalar_in index.now) s.now }
{
    if index[places::NTP] == 0 {
        return none(true);
    }
    match sent(delta, index, s) {
        Some(prft) => Told { ok: true, prft },
        None => none(false),
    }
}
