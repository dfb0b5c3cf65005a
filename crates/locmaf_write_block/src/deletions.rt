// The fields that vanished, by their ids: id 27, which stands last of all.
// Letters: `t` the track, `b` what is written against what, `r` the words of the reference's set, `x` the words of the new set.
ghost use Rattle.std.specs.Prelude.{◌≡◌, true, ◌+◌, ◌<◌, length, get_or};
ghost use Rattle.track.specs.declared.Track.{Track};
ghost use Rattle.wire.specs.Form.{rows};
ghost use Rattle.laws.specs.Options.{is_some};
ghost use Rattle.field_table.specs.Lines.{lines, spare, line_count, set_len};
ghost use Rattle.locmaf_write_tuples.specs.Items.{bytes_of, WeighedAs, RoomFor, WroteItems};
ghost use Rattle.locmaf_write_block.specs.Changes.{change_of};
ghost use Rattle.locmaf_write_block.specs.Fields.{is_deleted, gone_of, deletion_items, Collected, gone_most};

use crate::cells::Basis;
use constants::ids;
use field_rules::vanished::vanished;
use field_table::lines;
use locmaf_write_tuples::tuples;
use wire::form::Form;
use wire::zigzag::Coding;

// A field vanished if the reference has it and the new set doesn't; a full object goes by no reference.
fn is_deleted(b: Basis, r: &[u64], x: &[u64], i: usize) -> bool
    requires r_len { (length r.now ≡ set_len) × (length x.now ≡ set_len) }
    requires i_lt_line_count { i < line_count }
    ensures { (t : Track)
        → result ≡ is_deleted (change_of t b.delta b.follow r.now x.now (get_or lines i spare)) }
{
    let place = lines::place_at(i);
    vanished(b.delta, r[place], x[place])
}

// The ids deleted, in the order of the lines, so ascending; and how many there are.
fn deleted(b: Basis, r: &[u64], x: &[u64], ids: &mut [u64]) -> usize
    requires r_len { (length r.now ≡ set_len) × (length x.now ≡ set_len) }
    requires ids_len { length ids.old ≡ line_count }
    ensures { Collected (λ t. gone_of t b.delta b.follow r.now x.now lines)
        ids.new result }
{
    if !b.delta {
        return 0;
    }
    let mut n = 0;
    for i in 0..lines::LINES {
        if is_deleted(b, r, x, i) {
            ids[n] = lines::id_at(i);
            n += 1;
        }
    }
    n
}

// Id 27's tuple, whatever the track is.
pub fn deletions_size(form: Form, b: Basis, r: &[u64], x: &[u64]) -> Option<usize>
    requires { (length r.now ≡ set_len) × (length x.now ≡ set_len) }
    ensures { (t : Track)
        → WeighedAs (rows form) (deletion_items (rows form) t b.delta b.follow r.now x.now)
        gone_most result }
{
    let mut ids = [0u64; lines::LINES];
    let n = deleted(b, r, x, &mut ids);
    if n == 0 {
        return Some(0);
    }
    tuples::run_size(form, Coding::Plain, ids::DELETIONS, &ids[..n], &x[..0], 0)
}

// The same tuple written, whose bytes were weighed. Seldom does a field vanish, so that mostly nothing is looked for.
pub fn put_deletions(
    form: Form,
    b: Basis,
    r: &[u64],
    x: &[u64],
    bytes: usize,
    out: &mut [u8],
    at: usize,
) -> usize
    requires r_len { (length r.now ≡ set_len) × (length x.now ≡ set_len) }
    requires x_value { (t : Track) × (is_some (deletion_items (rows form) t b.delta b.follow r.now x.now) ≡ true)
        × (bytes ≡ length (bytes_of (rows form) (deletion_items (rows form) t b.delta b.follow r.now x.now)))
        × RoomFor (rows form) (deletion_items (rows form) t b.delta b.follow r.now x.now) out.old at }
    ensures { (t : Track)
        → WroteItems (rows form) (deletion_items (rows form) t b.delta b.follow r.now x.now)
        out.old at out.new result }
{
    if bytes == 0 {
        return at;
    }
    let mut ids = [0u64; lines::LINES];
    let n = deleted(b, r, x, &mut ids);
    tuples::put_run(
        form,
        Coding::Plain,
        ids::DELETIONS,
        bytes,
        &ids[..n],
        &x[..0],
        0,
        out,
        at,
    )
}
