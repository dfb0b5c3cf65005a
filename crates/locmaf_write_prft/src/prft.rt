// The producer reference time in an object: ids 18, 20, 22 and 24. In a delta they go by the share's prft, which is that of the current full
// object; in a full object version and flags go by what their absence means. Without a `prft` no number is sent, so none is coded either.
// Letters: `p` the `prft`, `s` the words of a share, `v` the value of an id.
ghost use Rattle.std.specs.Prelude.{◌≡◌, true, ◌+◌, ◌<◌, length, get_or};
ghost use Rattle.wire.specs.Form.{rows};
ghost use Rattle.wire.specs.Zigzag.{code_of};
ghost use Rattle.laws.specs.Options.{is_some};
ghost use Rattle.constants.specs.Ids.{id_count};
ghost use Rattle.share_words.specs.Share.{share_len, ntp_at, media_time_at};
ghost use Rattle.field_rules.specs.Fields.{coding_for};
ghost use Rattle.prft_value.specs.Prft.{kept_for};
ghost use Rattle.locmaf_write_tuples.specs.Items.{pair_most, WeighedAs, RoomFor, WroteItems};
ghost use Rattle.locmaf_write_prft.specs.Prft.{times_items, unless_items, version_items, flags_items};

use constants::ids;
use field_rules::rules::coding_for;
use locmaf_write_tuples::tuples;
use media::clocks::{NtpUnits, TrackTicks};
use prft_value::Prft;
use share_words::share;
use wire::form::Form;

// What the absence of ids 22 and 24 means in a full object.
const USUAL_VERSION: u64 = 1;

const USUAL_FLAGS: u64 = 0;

// Distances are taken on the time's own clock.
fn ntp_number(form: Form, delta: bool, p: Prft, s: &[u64]) -> Option<u64>
    requires { length s.now ≡ share_len }
    ensures { result ≡ code_of (rows form) (coding_for delta) (get_or s.now ntp_at 0) p.ntp.0 }
{
    let time = p.ntp;
    time.code(form, coding_for(delta), NtpUnits(s[share::NTP]))
}

fn media_number(form: Form, delta: bool, p: Prft, s: &[u64]) -> Option<u64>
    requires { length s.now ≡ share_len }
    ensures { result ≡ code_of (rows form) (coding_for delta) (get_or s.now media_time_at 0) p.media.0 }
{
    let time = p.media;
    time.code(form, coding_for(delta), TrackTicks(s[share::MEDIA_TIME]))
}

// What the absence of an id means: in a delta the word of the share at its place, in a full object the usual value.
fn if_absent(delta: bool, s: &[u64], place: usize, usual: u64) -> u64
    requires { place < length s.now }
    ensures { result ≡ kept_for delta (get_or s.now place 0) usual }
{
    if delta {
        return s[place];
    }
    usual
}

// ---- ids 18 and 20 stand together, with no distance too, since without them there is no box

pub fn times_size(form: Form, delta: bool, p: Prft, s: &[u64]) -> Option<usize>
    requires { length s.now ≡ share_len }
    ensures { WeighedAs (rows form) (times_items (rows form) delta s.now p) (pair_most + pair_most) result }
{
    if !p.stands {
        return Some(0);
    }
    let n = ntp_number(form, delta, p, s);
    let m = media_number(form, delta, p, s);
    let a = tuples::number_size(form, true, ids::NTP, n);
    let b = tuples::number_size(form, true, ids::MEDIA_TIME, m);
    tuples::both(a, b)
}

pub fn put_times(form: Form, delta: bool, p: Prft, s: &[u64], out: &mut [u8], at: usize) -> usize
    requires s_len { length s.now ≡ share_len }
    requires p_value { is_some (times_items (rows form) delta s.now p) ≡ true }
    requires room_for { RoomFor (rows form) (times_items (rows form) delta s.now p) out.old at }
    ensures { WroteItems (rows form) (times_items (rows form) delta s.now p)
        out.old at out.new result }
{
    if !p.stands {
        return at;
    }
    let n = ntp_number(form, delta, p, s);
    let m = media_number(form, delta, p, s);
    let a = tuples::put_number(form, true, ids::NTP, n, out, at);
    tuples::put_number(form, true, ids::MEDIA_TIME, m, out, a)
}

// ---- ids 22 and 24 stand unless they are what their absence means

// An id that stands in a `prft` unless its value v is the usual one.
fn unless_size(form: Form, delta: bool, stands: bool, id: u64, usual: u64, v: u64) -> Option<usize>
    requires { id < id_count }
    ensures { WeighedAs (rows form) (unless_items (rows form) delta stands id usual v) pair_most result }
{
    if !stands {
        return Some(0);
    }
    let c = wire::zigzag::code(form, coding_for(delta), usual, v);
    tuples::number_size(form, v != usual, id, c)
}

fn put_unless(
    form: Form,
    delta: bool,
    stands: bool,
    id: u64,
    usual: u64,
    v: u64,
    out: &mut [u8],
    at: usize,
) -> usize
    requires v_value { is_some (unless_items (rows form) delta stands id usual v) ≡ true }
    requires room_for { RoomFor (rows form) (unless_items (rows form) delta stands id usual v) out.old at }
    ensures { WroteItems (rows form) (unless_items (rows form) delta stands id usual v)
        out.old at out.new result }
{
    if !stands {
        return at;
    }
    let c = wire::zigzag::code(form, coding_for(delta), usual, v);
    tuples::put_number(form, v != usual, id, c, out, at)
}

pub fn version_size(form: Form, delta: bool, p: Prft, s: &[u64]) -> Option<usize>
    requires { length s.now ≡ share_len }
    ensures { WeighedAs (rows form) (version_items (rows form) delta s.now p) pair_most result }
{
    let usual = if_absent(delta, s, share::VERSION, USUAL_VERSION);
    unless_size(form, delta, p.stands, ids::VERSION, usual, p.version)
}

pub fn put_version(form: Form, delta: bool, p: Prft, s: &[u64], out: &mut [u8], at: usize) -> usize
    requires s_len { length s.now ≡ share_len }
    requires p_value { is_some (version_items (rows form) delta s.now p) ≡ true }
    requires room_for { RoomFor (rows form) (version_items (rows form) delta s.now p) out.old at }
    ensures { WroteItems (rows form) (version_items (rows form) delta s.now p)
        out.old at out.new result }
{
    let usual = if_absent(delta, s, share::VERSION, USUAL_VERSION);
    put_unless(
        form,
        delta,
        p.stands,
        ids::VERSION,
        usual,
        p.version,
        out,
        at,
    )
}

pub fn flags_size(form: Form, delta: bool, p: Prft, s: &[u64]) -> Option<usize>
    requires { length s.now ≡ share_len }
    ensures { WeighedAs (rows form) (flags_items (rows form) delta s.now p) pair_most result }
{
    let usual = if_absent(delta, s, share::PRFT_FLAGS, USUAL_FLAGS);
    unless_size(form, delta, p.stands, ids::PRFT_FLAGS, usual, p.flags)
}

pub fn put_flags(form: Form, delta: bool, p: Prft, s: &[u64], out: &mut [u8], at: usize) -> usize
    requires s_len { length s.now ≡ share_len }
    requires p_value { is_some (flags_items (rows form) delta s.now p) ≡ true }
    requires room_for { RoomFor (rows form) (flags_items (rows form) delta s.now p) out.old at }
    ensures { WroteItems (rows form) (flags_items (rows form) delta s.now p)
        out.old at out.new result }
{
    let usual = if_absent(delta, s, share::PRFT_FLAGS, USUAL_FLAGS);
    put_unless(
        form,
        delta,
        p.stands,
        ids::PRFT_FLAGS,
        usual,
        p.flags,
        out,
        at,
    )
}
