// The property block of an object: its tuples ascending by id, weighed first and then written.
// Letters: `t` the track, `s` the words of a share, `c` a chunk's bytes, `k` what was read of a chunk, `x` the words of the new set.
ghost use Rattle.std.specs.Prelude.{◌≡◌, true, List, ℕ, ◌+◌, ◌-◌, ◌≤◌, length, drop};
ghost use Rattle.wire.specs.Form.{rows};
ghost use Rattle.laws.specs.Options.{is_some};
ghost use Rattle.constants.specs.Maxima.{brand_bytes_most, event_bytes_most};
ghost use Rattle.share_words.specs.Share.{share_len, set_at};
ghost use Rattle.cmaf_read_shape.specs.Parts.{end_of};
ghost use Rattle.locmaf_write_events.specs.Records.{AllWords, sent_of};
ghost use Rattle.locmaf_write_tuples.specs.Items.{pair_most, weight_most, WeighedAs, RoomFor, WroteItems};
ghost use Rattle.locmaf_write_block.specs.Fields.{kept_len, Kept};
ghost use Rattle.encoder.specs.Object.{brand_items, event_items, block_items};
ghost use Rattle.encoder.specs.Planned.{BrandBytes, brands_at, outside_items, Recorded, Encodable, ReadOfOne, OfEach, Held, Leaves};

use byte_parts::Part;
use cmaf_read_chunk::read::Chunk;
use constants::ids;
use field_table::lines;
use locmaf_write_block::{deletions, set};
use locmaf_write_prft::prft;
use locmaf_write_tuples::tuples;
use media::clocks::TrackTicks;
use share_words::share;
use track::Track;
use wire::form::Form;

// ---- id 23: the brands of a styp without its minor version

// What brands of a `styp` with a body of n bytes take, whichever they are.
fn brands_size(form: Form, delta: bool, n: usize) -> Option<usize>
    requires { BrandBytes n }
    ensures { (names : List ℕ) → length names ≡ n - 4
        → WeighedAs (rows form) (brand_items delta names) (pair_most + brand_bytes_most) result }
{
    if delta | (n == 0) {
        return Some(0);
    }
    Some(tuples::body_size(form, ids::BRANDS, n - 4))
}

fn put_brands(form: Form, delta: bool, c: &[u8], body: Part, out: &mut [u8], at: usize) -> usize
    requires brand_bytes { BrandBytes body.len × (end_of body ≤ length c.now) }
    requires room_for { RoomFor (rows form) (brand_items delta (brands_at c.now body)) out.old at }
    ensures { WroteItems (rows form) (brand_items delta (brands_at c.now body))
        out.old at out.new result }
{
    let from = body.at;
    let n = body.len;
    if delta | (n == 0) {
        return at;
    }
    let a = tuples::put_head(form, ids::BRANDS, n - 4, out, at);
    let b = boxes::put::put_bytes(out, a, &c[from..from + 4]);
    boxes::put::put_bytes(out, b, &c[from + 8..from + n])
}

// ---- id 25: the events, whole in a delta too

// What events with a list of so many bytes take, whatever their texts are.
fn events_size(
    form: Form,
    t: Track,
    bmdt: TrackTicks,
    ws: &[u64],
    count: usize,
    list: usize,
) -> Option<usize>
    requires { AllWords ws.now count × (list ≤ event_bytes_most) }
    ensures { (c : List ℕ) → Recorded (rows form) t bmdt.0 c ws.now count list
        → WeighedAs (rows form) (event_items (rows form) (sent_of t bmdt.0 c ws.now count))
        (pair_most + event_bytes_most) result }
{
    if count == 0 {
        return Some(0);
    }
    if !locmaf_write_events::records::times_fit(form, t, bmdt, ws, count) {
        return None;
    }
    Some(tuples::body_size(form, ids::EVENTS, list))
}

fn put_events(
    form: Form,
    t: Track,
    bmdt: TrackTicks,
    c: &[u8],
    ws: &[u64],
    count: usize,
    list: usize,
    out: &mut [u8],
    at: usize,
) -> usize
    requires recorded { Recorded (rows form) t bmdt.0 c.now ws.now count list }
    requires count_value { is_some (event_items (rows form) (sent_of t bmdt.0 c.now ws.now count)) ≡ true }
    requires room_for { RoomFor (rows form) (event_items (rows form) (sent_of t bmdt.0 c.now ws.now count))
        out.old at }
    ensures { WroteItems (rows form)
        (event_items (rows form) (sent_of t bmdt.0 c.now ws.now count))
        out.old at out.new result }
{
    if count == 0 {
        return at;
    }
    let a = tuples::put_head(form, ids::EVENTS, list, out, at);
    locmaf_write_events::records::put_records(form, t, bmdt, c, ws, count, out, a)
}

// ---- all of them

// What the block takes. The bytes of the tuples whose numbers had to be compared and coded for it are kept.
pub fn block_size(
    form: Form,
    t: Track,
    delta: bool,
    follow: bool,
    s: &[u64],
    k: Chunk,
    ws: &[u64],
    x: &[u64],
    kept: &mut [usize],
) -> Option<usize>
    requires read_of_one { ReadOfOne (rows form) t s.now k ws.now x.now }
    requires held { Held delta s.now × Leaves t delta s.now x.now follow × (length kept.old ≡ kept_len) }
    ensures { OfEach (rows form) t s.now k ws.now x.now
        (λ c. WeighedAs (rows form) (block_items (rows form) s.now c delta) weight_most result)
        × Kept (rows form) t delta follow (drop set_at s.now) x.now kept.new }
{
    let r = &s[share::SET..];
    let p = k.prft;
    let b = set::basis_of(t, delta, follow, r, x);
    let fields = set::set_size(form, t, b, slots::lawful::expected_of(s), r, x, &mut *kept);
    let times = prft::times_size(form, delta, p, s);
    let version = prft::version_size(form, delta, p, s);
    let names = brands_size(form, delta, k.brands.len);
    let flags = prft::flags_size(form, delta, p, s);
    let happened = events_size(form, t, TrackTicks(x[lines::BMDT]), ws, k.events, k.list);
    let gone = deletions::deletions_size(form, b, r, x);
    kept[set::GONE] = gone.unwrap_or(0);
    let last = tuples::both(flags, tuples::both(happened, gone));
    tuples::both(
        fields,
        tuples::both(times, tuples::both(version, tuples::both(names, last))),
    )
}

// What stands between the fields of the `moof` and the deletions, ids 18 to 25: the `prft`, the brands and the events.
fn put_outside(
    form: Form,
    t: Track,
    delta: bool,
    s: &[u64],
    c: &[u8],
    k: Chunk,
    bmdt: TrackTicks,
    ws: &[u64],
    out: &mut [u8],
    at: usize,
) -> usize
    requires s_len { length s.now ≡ share_len }
    requires brand_bytes { BrandBytes k.brands.len × (end_of k.brands ≤ length c.now) }
    requires recorded { Recorded (rows form) t bmdt.0 c.now ws.now k.events k.list }
    requires ws_value { is_some (outside_items (rows form) t delta s.now c.now k bmdt.0 ws.now) ≡ true }
    requires room_for { RoomFor (rows form) (outside_items (rows form) t delta s.now c.now k bmdt.0 ws.now)
        out.old at }
    ensures { WroteItems (rows form)
        (outside_items (rows form) t delta s.now c.now k bmdt.0 ws.now)
        out.old at out.new result }
{
    let p = k.prft;
    let u = prft::put_times(form, delta, p, s, out, at);
    let v = prft::put_version(form, delta, p, s, out, u);
    let w = put_brands(form, delta, c, k.brands, out, v);
    let y = prft::put_flags(form, delta, p, s, out, w);
    put_events(form, t, bmdt, c, ws, k.events, k.list, out, y)
}

pub fn put_block(
    form: Form,
    t: Track,
    delta: bool,
    follow: bool,
    s: &[u64],
    c: &[u8],
    k: Chunk,
    ws: &[u64],
    x: &[u64],
    kept: &[usize],
    out: &mut [u8],
    at: usize,
) -> usize
    requires encodable { Encodable (rows form) t s.now c.now k ws.now x.now }
    requires held { Held delta s.now × Leaves t delta s.now x.now follow }
    requires kept { Kept (rows form) t delta follow (drop set_at s.now) x.now kept.now }
    requires delta_value { is_some (block_items (rows form) s.now c.now delta) ≡ true }
    requires room_for { RoomFor (rows form) (block_items (rows form) s.now c.now delta) out.old at }
    ensures { WroteItems (rows form) (block_items (rows form) s.now c.now delta)
        out.old at out.new result }
{
    let r = &s[share::SET..];
    let bmdt = TrackTicks(x[lines::BMDT]);
    let b = set::basis_of(t, delta, follow, r, x);
    let u = set::put_set(
        form,
        t,
        b,
        slots::lawful::expected_of(s),
        r,
        x,
        kept,
        out,
        at,
    );
    let v = put_outside(form, t, delta, s, c, k, bmdt, ws, out, u);
    deletions::put_deletions(form, b, r, x, kept[set::GONE], out, v)
}
