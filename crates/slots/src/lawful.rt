// A slot's share of the table: parameters, the count of accepted objects, and the reference with the current full object's prft.
// Letters: `s` the words of a share, `a` the parameters as asked.
ghost use Rattle.std.specs.Prelude.{◌≡◌, true, ◌≤◌, ◌-◌, ◌++◌, length, get_or, drop};
ghost use Rattle.laws.specs.Tests.{◌and◌};
ghost use Rattle.share_words.specs.Share.{share_len, set_at, track_at, accepted_at};
ghost use Rattle.slots.specs.Share.{asked_of, track_of, expected_in, param_words, accepted_ok, prft_ok, expected_ok, last_ok, set_ok, reference_ok, lawful};
ghost use Rattle.track.specs.Track.{lawful as lawful_track};

use constants::maxima;
use effective::expected;
use effective::expected::Expected;
use field_table::lines;
use share_words::share;
use track::{Asked, Track};
use word_spans::scan;

// Whose table it is. Only a receiver counts the objects that it accepted.
#[derive(Clone, Copy)]
pub enum Side {
    Encoder,
    Receiver,
}

const U24: u64 = 0xff_ffff;

const U32: u64 = 0xffff_ffff;

// The parameters as the words have them; the first has been read.
fn asked_of(track: u64, s: &[u64]) -> Asked
    requires { (length s.now ≡ share_len) × (track ≡ get_or s.now track_at 0) }
    ensures { result ≡ asked_of s.now }
{
    Asked {
        track,
        timescale: s[share::TIMESCALE],
        description: s[share::DESCRIPTION],
        duration: s[share::DURATION],
        size: s[share::SIZE],
        flags: s[share::FLAGS],
        protection: s[share::PROTECTION],
        iv_size: s[share::IV_SIZE],
    }
}

// The track of an open share.
pub fn track_of(s: &[u64]) -> Track
    requires { (length s.now ≡ share_len) × (lawful_track (asked_of s.now) ≡ true) }
    ensures { result ≡ track_of s.now }
{
    track::narrowed(asked_of(s[share::TRACK], s))
}

// The BMDT that is expected, as the words have it.
pub fn expected_of(s: &[u64]) -> Expected
    requires { length s.now ≡ share_len }
    ensures { result ≡ expected_in s.now }
{
    Expected {
        past: s[share::PAST],
        time: s[share::EXPECTED],
    }
}

fn accepted_ok(side: Side, n: u64) -> bool
    ensures { result ≡ accepted_ok side n }
{
    match side {
        Side::Encoder => n == 0,
        Side::Receiver => n <= U32,
    }
}

fn prft_ok(s: &[u64]) -> bool
    requires { length s.now ≡ share_len }
    ensures { result ≡ prft_ok s.now }
{
    let mark = s[share::PRFT];
    if mark == 0 {
        return scan::bits(s, share::NTP, share::PRFT_END) == 0;
    }
    let version = s[share::VERSION];
    let media = s[share::MEDIA_TIME];
    (mark == 1)
        & ((version <= 1)
            & (((version == 1) | (media <= U32))
                & ((s[share::PRFT_FLAGS] <= U24)
                    & ((s[share::NTP] <= maxima::NUMBER) & (media <= maxima::NUMBER)))))
}

// Whether the set is one that a share can hold, and what the share has beside it belongs to it: its last sample's protected bytes, and what is expected behind it. The
// durations that it lists were added up when its words were looked at, and its subsamples counted.
fn set_ok(t: Track, s: &[u64]) -> bool
    requires { (length s.now ≡ share_len) × (t.iv_size ≤ 16) }
    ensures { result
        ≡ (expected_ok t s.now and last_ok t s.now and set_ok t (drop set_at s.now)) }
{
    let w = &s[share::SET..];
    let k = field_set::lawful::test_set(t, w);
    if !k.ok {
        return false;
    }
    if !counters::protected::last_fits(t, w, k.pairs, s[share::LAST]) {
        return false;
    }
    let d = effective::durations::durations_by(t, w, k.durations);
    let e = expected::expected_by(w[lines::BMDT], d);
    if expected_of(s) != e {
        return false;
    }
    told_sizes::told::sizes_agree(t, w)
}

// Whether a reference that the share marks as held is lawful, or nothing is stored where none is.
fn reference_ok(t: Track, s: &[u64]) -> bool
    requires { (length s.now ≡ share_len) × (t.iv_size ≤ 16) }
    ensures { result ≡ reference_ok t s.now }
{
    let held = s[share::HELD];
    if held == 0 {
        return scan::bits(s, share::PRFT, share::SHARE) == 0;
    }
    (held == 1) & (prft_ok(s) & set_ok(t, s))
}

// Whether the words are those of a lawful share.
pub fn is_lawful(side: Side, s: &[u64]) -> bool
    requires { length s.now ≡ share_len }
    ensures { result ≡ lawful side s.now }
{
    let id = s[share::TRACK];
    if id == 0 {
        return scan::bits(s, share::TIMESCALE, share::SHARE) == 0;
    }
    let a = asked_of(id, s);
    if !track::is_lawful(a) {
        return false;
    }
    accepted_ok(side, s[share::ACCEPTED]) & reference_ok(track::narrowed(a), s)
}

// The parameters into the words of a closed share.
pub fn write_asked(s: &mut [u64], a: Asked)
    requires { length s.old ≡ share_len }
    ensures { s.new ≡ param_words a ++ drop accepted_at s.old }
{
    s[share::TRACK] = a.track;
    s[share::TIMESCALE] = a.timescale;
    s[share::DESCRIPTION] = a.description;
    s[share::DURATION] = a.duration;
    s[share::SIZE] = a.size;
    s[share::FLAGS] = a.flags;
    s[share::PROTECTION] = a.protection;
    s[share::IV_SIZE] = a.iv_size;
}
