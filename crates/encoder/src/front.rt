// The object of a chunk: full or delta, or why there is none; and all of it before the payload, written.
// Letters: `t` the track, `s` the words of a share, `c` a chunk's bytes, `k` what was read of a chunk, `x` the words of the new set, `a` what is
//   planned, `p` a prft.
ghost use Rattle.std.specs.Prelude.{◌≡◌, true, ◌≤◌, length, get_or, drop};
ghost use Rattle.laws.specs.Writes.{Wrote};
ghost use Rattle.wire.specs.Form.{rows};
ghost use Rattle.share_words.specs.Share.{share_len, last_at, set_at};
ghost use Rattle.counters.specs.Follow.{Behind};
ghost use Rattle.locmaf_write_tuples.specs.Items.{weight_most};
ghost use Rattle.locmaf_write_block.specs.Fields.{kept_len, Kept};
ghost use Rattle.encoder.specs.Object.{header_of, may_delta, object_of};
ghost use Rattle.encoder.specs.Planned.{Encodable, ReadOfOne, OfEach, front_bytes, Sendable, Leaves, PlannedAs, planned_delta, planned_follow};

use crate::properties;
use cmaf_read_chunk::read::Chunk;
use constants::ids;
use field_table::lines;
use prft_value::Prft;
use share_words::share;
use track::Track;
use wire::form::Form;

// What is to be written: a delta or a full object with a block of so many bytes.
#[derive(Clone, Copy)]
pub struct Plan {
    pub delta: bool,
    pub follow: bool,
    pub block: usize,
}

// Whether a delta may be tried: one is wished for, a reference is held, and a prft has one in the current full object.
fn may_delta(wish: bool, s: &[u64], p: Prft) -> bool
    requires { length s.now ≡ share_len }
    ensures { result ≡ may_delta s.now p wish }
{
    wish & ((s[share::HELD] != 0) & (!p.stands | (s[share::PRFT] != 0)))
}

// Whether the IVs follow from the reference's. A full object has all of them, so that it is asked only where a delta is wished for.
pub fn follows(t: Track, wish: bool, s: &[u64], x: &[u64]) -> bool
    requires { (length s.now ≡ share_len) × Behind t (get_or s.now last_at 0) (drop set_at s.now) x.now }
    ensures { wish ≡ true → Leaves t true s.now x.now result }
{
    if !wish {
        return false;
    }
    if x[lines::IVS] == 0 {
        return false;
    }
    counters::follow::ivs_follow(t, s[share::LAST], &s[share::SET..], x)
}

// A delta where one is wished for and possible, else a full object, else none. `follow` says whether the IVs follow, if a delta is wished for.
pub fn choose(
    form: Form,
    t: Track,
    wish: bool,
    follow: bool,
    s: &[u64],
    k: Chunk,
    ws: &[u64],
    x: &[u64],
    kept: &mut [usize],
) -> Option<Plan>
    requires read_of_one { ReadOfOne (rows form) t s.now k ws.now x.now }
    requires leaves { (wish ≡ true → Leaves t true s.now x.now follow) × (length kept.old ≡ kept_len) }
    ensures { OfEach (rows form) t s.now k ws.now x.now
        (λ c. PlannedAs (rows form) s.now c wish result)
        × Leaves t (planned_delta result) s.now x.now (planned_follow result)
        × Kept (rows form) t (planned_delta result) (planned_follow result) (drop set_at s.now) x.now kept.new }
{
    let p = k.prft;
    if may_delta(wish, s, p) {
        let d = properties::block_size(form, t, true, follow, s, k, ws, x, &mut *kept);
        if let Some(block) = d {
            return Some(Plan {
                delta: true,
                follow,
                block,
            });
        }
    }
    let block = properties::block_size(form, t, false, false, s, k, ws, x, kept)?;
    Some(Plan {
        delta: false,
        follow: false,
        block,
    })
}

fn header_of(delta: bool) -> u64
    ensures { result ≡ header_of delta }
{
    if delta {
        return ids::DELTA;
    }
    ids::FULL
}

// The bytes before the payload.
pub fn front_length(form: Form, a: Plan) -> usize
    requires { a.block ≤ weight_most }
    ensures { result ≡ front_bytes (rows form) a }
{
    wire::varint::size(form, header_of(a.delta))
        + (wire::varint::size(form, a.block as u64) + a.block)
}

// All of the object before the payload, from the first byte of the output on; and its length.
pub fn put_front(
    form: Form,
    t: Track,
    a: Plan,
    s: &[u64],
    c: &[u8],
    k: Chunk,
    ws: &[u64],
    x: &[u64],
    kept: &[usize],
    out: &mut [u8],
) -> usize
    requires encodable { Encodable (rows form) t s.now c.now k ws.now x.now }
    requires sendable { Sendable (rows form) s.now c.now a }
    requires leaves { Leaves t a.delta s.now x.now a.follow }
    requires kept { Kept (rows form) t a.delta a.follow (drop set_at s.now) x.now kept.now }
    requires delta_in_bounds { length (object_of (rows form) s.now c.now a.delta) ≤ length out.old }
    ensures { Wrote out.old 0 (object_of (rows form) s.now c.now a.delta)
        out.new result }
{
    let h = wire::varint::put(form, out, 0, header_of(a.delta));
    let p = wire::varint::put(form, out, h, a.block as u64);
    properties::put_block(form, t, a.delta, a.follow, s, c, k, ws, x, kept, out, p)
}
