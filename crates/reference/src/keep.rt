// The reference into the share.
// Letters: `s` the words of a share, `x` the words of the new set.
ghost use Rattle.std.specs.Prelude.{◌≡◌, true, ◌++◌, length, take, drop};
ghost use Rattle.field_table.specs.Lines.{set_len};
ghost use Rattle.field_set.specs.Lawful.{Tidy, lawful};
ghost use Rattle.share_words.specs.Share.{set_at, share_len};
ghost use Rattle.effective.specs.Durations.{Timed};
ghost use Rattle.effective.specs.Sizes.{Sized};
ghost use Rattle.told_sizes.specs.Sums.{Summable};
ghost use Rattle.track.specs.Track.{lawful as lawful_track};
ghost use Rattle.slots.specs.Share.{asked_of, track_of};
ghost use Rattle.reference.specs.Kept.{replaced_by, stored_words, renewed};

use counters::protected;
use effective::expected;
use field_table::lines;
use prft_value::Prft;
use share_words::share;
use word_spans::words;

// The words of a set into the share. A field that stands neither in the old set nor in the new one has nothing stored in either: its words stay.
fn copy_set(s: &mut [u64], x: &[u64])
    requires s_len { (length s.old ≡ share_len) × (length x.now ≡ set_len) }
    requires tidy { Tidy (drop set_at s.old) × Tidy x.now }
    ensures { s.new ≡ take set_at s.old ++ x.now }
{
    words::copy(x, lines::BMDT, lines::SIZES, &mut *s, share::SET);
    let mut from = lines::SIZES;
    for i in 0..lines::LINES {
        let to = lines::place_at(i + 1);
        let at = share::SET + from;
        if (s[at] != 0) | (x[from] != 0) {
            words::copy(x, from, to - from, &mut *s, at);
        }
        from = to;
    }
}

// What an accepted object replaces of the reference.
#[derive(Clone, Copy)]
pub struct Replaced {
    pub set: bool,
    pub prft: bool,
    pub beside: bool,
}

// The set always, and what is kept beside it: a delta is read against the object before it, and not against the last full one. The prft with a full object alone.
fn replaced_by(delta: bool) -> Replaced
    ensures { result ≡ replaced_by delta }
{
    Replaced {
        set: true,
        prft: !delta,
        beside: true,
    }
}

// The reference after an accepted object, but for what is kept beside the set.
pub fn keep(s: &mut [u64], delta: bool, prft: Prft, sequence: u64, x: &[u64])
    requires s_len { (length s.old ≡ share_len) × (length x.now ≡ set_len) }
    requires tidy { Tidy (drop set_at s.old) × Tidy x.now }
    ensures { s.new ≡ stored_words delta sequence prft x.now s.old }
{
    let new = replaced_by(delta);
    s[share::ACCEPTED] = sequence;
    s[share::HELD] = 1;
    if new.prft {
        s[share::PRFT] = if prft.stands { 1 } else { 0 };
        s[share::NTP] = prft.ntp.0;
        s[share::MEDIA_TIME] = prft.media.0;
        s[share::VERSION] = prft.version;
        s[share::PRFT_FLAGS] = prft.flags;
    }
    if new.set {
        copy_set(s, x);
    }
}

// What is kept beside the set, once the share holds that: what is expected behind it, by its own BMDT and durations and none of the one before, and its last sample's
// protected bytes. The share has the track too.
pub fn renew(delta: bool, payload: u64, s: &mut [u64])
    requires s_len { (length s.old ≡ share_len) × Timed (drop set_at s.old) }
    requires summable { Summable (drop set_at s.old) × Sized (drop set_at s.old) payload }
    requires s_value { (lawful_track (asked_of s.old) ≡ true) × (lawful (track_of s.old) (drop set_at s.old) ≡ true) }
    ensures { s.new ≡ renewed payload s.old }
{
    let new = replaced_by(delta);
    if new.beside {
        let t = slots::lawful::track_of(s);
        let w = &s[share::SET..];
        let e = expected::expected_behind(t, w);
        let last = protected::last_protected(t, w, payload);
        s[share::PAST] = e.past;
        s[share::EXPECTED] = e.time;
        s[share::LAST] = last;
    }
}
