// The moof: `mfhd`, and a traf of `tfhd`, `tfdt`, `trun` and the boxes of protected samples.
// Letters: `t` the track, `w` the words of a set.
ghost use Rattle.std.specs.Prelude.{◌≡◌, ℕ, ◌+◌, ◌≤◌, ◌<◌, length};
ghost use Rattle.laws.specs.Bytes.{be};
ghost use Rattle.laws.specs.Writes.{Wrote};
ghost use Rattle.media.specs.Flags.{wide_of};
ghost use Rattle.constants.specs.Maxima.{samples_most};
ghost use Rattle.field_table.specs.Lines.{set_len};
ghost use Rattle.boxes.specs.Box.{when, flag_when};
ghost use Rattle.field_set.specs.Lawful.{count_in};
ghost use Rattle.cmaf_write_moof.specs.Moof.{tfhd_flags, tfhd_box, tfdt_box, offset_field, trun_row, trun_rows, trun_flags, trun_box, plain, moof_box, moof_whole};
ghost use Rattle.cmaf_write_moof.specs.Lengths.{tfhd_length, row_length, trun_length, plain_length, trun_most, plain_most, moof_most};
ghost use Rattle.cmaf_write_senc.specs.Protection.{Protectable};
ghost use Rattle.effective.specs.Sizes.{Sized};

use crate::protection;
use boxes::{kinds, put};
use field_table::lines;
use media::flags::SampleFlags;
use track::Track;

// v where the test holds.
fn flag_when(b: bool, v: u64) -> u64
    ensures { (result ≡ flag_when b v) × (result ≤ v) }
{
    if b { v } else { 0 }
}

// The low 32 bits of v where the test holds.
fn put_when(b: bool, v: u64, out: &mut [u8], at: usize) -> usize
    requires { at + length (when b (be 4 v)) ≤ length out.old }
    ensures { Wrote out.old at (when b (be 4 v)) out.new result }
{
    if b {
        return put::put_u32(out, at, v);
    }
    at
}

// Sample flags from their five-bit form.
fn wide(v: u64) -> u64
    ensures { result ≡ wide_of v }
{
    let SampleFlags(f) = SampleFlags::of_five(v);
    f as u64
}

// ---- tfhd

fn tfhd_length(w: &[u64]) -> u64
    requires { length w.now ≡ set_len }
    ensures { (result ≡ tfhd_length w.now) × (result ≤ 28) }
{
    16 + (flag_when(w[lines::DESCRIPTION] != 0, 4)
        + (flag_when(w[lines::DURATION] != 0, 4) + flag_when(w[lines::DEFAULT_FLAGS] != 0, 4)))
}

fn tfhd_flags(w: &[u64]) -> u64
    requires { length w.now ≡ set_len }
    ensures { result ≡ tfhd_flags w.now }
{
    0x02_0000
        + (flag_when(w[lines::DESCRIPTION] != 0, 0x2)
            + (flag_when(w[lines::DURATION] != 0, 0x8)
                + flag_when(w[lines::DEFAULT_FLAGS] != 0, 0x20)))
}

fn put_tfhd(t: Track, w: &[u64], out: &mut [u8], at: usize) -> usize
    requires w_len { length w.now ≡ set_len }
    requires w_in_bounds { at + length (tfhd_box t w.now) ≤ length out.old }
    ensures { Wrote out.old at (tfhd_box t w.now) out.new result }
{
    let head: [u64; 4] = [tfhd_length(w), kinds::TFHD, tfhd_flags(w), t.id as u64];
    let a = put::put_words(out, at, &head);
    let b = put_when(
        w[lines::DESCRIPTION] != 0,
        w[lines::DESCRIPTION + 1],
        out,
        a,
    );
    let c = put_when(w[lines::DURATION] != 0, w[lines::DURATION + 1], out, b);
    put_when(
        w[lines::DEFAULT_FLAGS] != 0,
        wide(w[lines::DEFAULT_FLAGS + 1]),
        out,
        c,
    )
}

// ---- tfdt

fn put_tfdt(w: &[u64], out: &mut [u8], at: usize) -> usize
    requires w_len { length w.now ≡ set_len }
    requires w_in_bounds { at + length (tfdt_box w.now) ≤ length out.old }
    ensures { Wrote out.old at (tfdt_box w.now) out.new result }
{
    let bmdt = w[lines::BMDT];
    let all: [u64; 5] = [20, kinds::TFDT, 0x100_0000, bmdt / 0x1_0000_0000, bmdt];
    put::put_words(out, at, &all)
}

// ---- trun

// The length of the columns of one sample.
fn row_length(w: &[u64]) -> u64
    requires { length w.now ≡ set_len }
    ensures { (result ≡ row_length w.now) × (result ≤ 16) }
{
    4 + (flag_when(w[lines::DURATIONS] != 0, 4)
        + (flag_when(w[lines::FLAGS] != 0, 4) + flag_when(w[lines::OFFSETS] != 0, 4)))
}

fn trun_length(w: &[u64]) -> u64
    requires { (length w.now ≡ set_len) × (count_in w.now ≤ samples_most) }
    ensures { (result ≡ trun_length w.now) × (result ≤ trun_most) }
{
    20 + (flag_when(w[lines::FIRST_FLAGS] != 0, 4) + w[lines::COUNT] * row_length(w))
}

fn trun_flags(w: &[u64]) -> u64
    requires { length w.now ≡ set_len }
    ensures { (result ≡ trun_flags w.now) × (result ≤ 0xf05) }
{
    0x1 + (flag_when(w[lines::FIRST_FLAGS] != 0, 0x4)
        + (flag_when(w[lines::DURATIONS] != 0, 0x100)
            + (flag_when(0 < w[lines::COUNT], 0x200)
                + (flag_when(w[lines::FLAGS] != 0, 0x400)
                    + flag_when(w[lines::OFFSETS] != 0, 0x800)))))
}

// A composition offset, which is kept with 2^31 added, as the box has it.
fn offset_field(v: u64) -> u64
    ensures { result ≡ offset_field v }
{
    (v % 0x1_0000_0000 + 0x8000_0000) % 0x1_0000_0000
}

// The columns of the sample with the number i.
fn put_row(w: &[u64], size: u64, i: usize, out: &mut [u8], at: usize) -> usize
    requires w_len { (length w.now ≡ set_len) × (i < samples_most) }
    requires i_in_bounds { at + length (trun_row w.now size i) ≤ length out.old }
    ensures { Wrote out.old at (trun_row w.now size i) out.new result }
{
    let a = put_when(
        w[lines::DURATIONS] != 0,
        w[lines::DURATIONS + 1 + i],
        out,
        at,
    );
    let b = put::put_u32(out, a, size);
    let c = put_when(w[lines::FLAGS] != 0, wide(w[lines::FLAGS + 1 + i]), out, b);
    put_when(
        w[lines::OFFSETS] != 0,
        offset_field(w[lines::OFFSETS + 1 + i]),
        out,
        c,
    )
}

fn put_rows(t: Track, w: &[u64], payload: u64, out: &mut [u8], at: usize) -> usize
    requires w_len { (length w.now ≡ set_len) × (count_in w.now ≤ samples_most) }
    requires sized { Sized w.now payload }
    requires w_in_bounds { at + length (trun_rows t w.now payload (count_in w.now) 0) ≤ length out.old }
    ensures { Wrote out.old at (trun_rows t w.now payload (count_in w.now) 0)
        out.new result }
{
    let n = w[lines::COUNT] as usize;
    let listed = effective::sizes::listed_sizes(w);
    let last = effective::sizes::last_size(t, w, payload);
    let mut p = at;
    for i in 0..n {
        let size = effective::sizes::size_at(w, listed, last, i);
        p = put_row(w, size, i, out, p);
    }
    p
}

fn put_trun(t: Track, w: &[u64], payload: u64, offset: u64, out: &mut [u8], at: usize) -> usize
    requires w_len { (length w.now ≡ set_len) × (count_in w.now ≤ samples_most) }
    requires sized { Sized w.now payload }
    requires offset_in_bounds { at + length (trun_box t w.now payload offset) ≤ length out.old }
    ensures { Wrote out.old at (trun_box t w.now payload offset) out.new result }
{
    let head: [u64; 5] = [
        trun_length(w),
        kinds::TRUN,
        0x100_0000 + trun_flags(w),
        w[lines::COUNT],
        offset,
    ];
    let a = put::put_words(out, at, &head);
    let b = put_when(
        w[lines::FIRST_FLAGS] != 0,
        wide(w[lines::FIRST_FLAGS + 1]),
        out,
        a,
    );
    put_rows(t, w, payload, out, b)
}

// ---- the moof

// The length of `tfhd`, `tfdt` and `trun`.
fn plain_length(w: &[u64]) -> u64
    requires { (length w.now ≡ set_len) × (count_in w.now ≤ samples_most) }
    ensures { (result ≡ plain_length w.now) × (result ≤ plain_most) }
{
    tfhd_length(w) + (20 + trun_length(w))
}

fn put_plain(t: Track, w: &[u64], payload: u64, offset: u64, out: &mut [u8], at: usize) -> usize
    requires w_len { (length w.now ≡ set_len) × (count_in w.now ≤ samples_most) }
    requires sized { Sized w.now payload }
    requires offset_in_bounds { at + length (plain t w.now payload offset) ≤ length out.old }
    ensures { Wrote out.old at (plain t w.now payload offset) out.new result }
{
    let a = put_tfhd(t, w, out, at);
    let b = put_tfdt(w, out, a);
    put_trun(t, w, payload, offset, out, b)
}

// The length of the moof: what its sequence number, its sizes and its data offset are doesn't matter.
pub fn moof_length(t: Track, w: &[u64]) -> usize
    requires { Protectable t w.now }
    ensures length { (sequence payload offset : ℕ)
        → result ≡ length (moof_box t sequence w.now payload offset) }
    ensures small { result ≤ moof_most }
{
    32 + plain_length(w) as usize + protection::protection_length(t, w)
}

// Its length is known from weighing it.
pub fn put_moof(
    t: Track,
    sequence: u64,
    w: &[u64],
    payload: u64,
    whole: usize,
    out: &mut [u8],
    at: usize,
) -> usize
    requires protectable { Protectable t w.now }
    requires sized { Sized w.now payload }
    requires whole_value { whole ≡ length (moof_whole t sequence w.now payload) }
    requires payload_in_bounds { at + length (moof_whole t sequence w.now payload) ≤ length out.old }
    ensures { Wrote out.old at (moof_whole t sequence w.now payload) out.new result }
{
    let place = 32 + plain_length(w) as usize;
    let size = whole as u64;
    let head: [u64; 8] = [
        size,
        kinds::MOOF,
        16,
        kinds::MFHD,
        0,
        sequence,
        size - 24,
        kinds::TRAF,
    ];
    let a = put::put_words(out, at, &head);
    let b = put_plain(t, w, payload, size + 8, out, a);
    protection::put_protection(t, w, place, out, b)
}
