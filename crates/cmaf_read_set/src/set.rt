// The set of a chunk, in the order of the table but for the first sample's flags, which go before what the `senc` has.
// Letters: `t` the track, `c` a chunk's bytes, `d` the defaults of the `tfhd`, `r` the rows of the `trun`, `f` the boxes inside the `moof`,
//   `x` the words of the new set.
ghost use Rattle.std.specs.Prelude.{◌≡◌, true, ◌<◌, ◌^◌, length, replicate};
ghost use Rattle.field_table.specs.Lines.{set_len};
ghost use Rattle.media.specs.Flags.{five_of};
ghost use Rattle.cmaf_read_shape.specs.Parts.{Inside};
ghost use Rattle.cmaf_read_moof.specs.Defaults.{defaults_of, Narrow};
ghost use Rattle.cmaf_read_trun.specs.Rows.{trun_ok, first_flags};
ghost use Rattle.cmaf_read_samples.specs.Sizes.{Sized};
ghost use Rattle.cmaf_read_set.specs.Set.{chunk_set};
ghost use Rattle.cmaf_read_set.specs.Stored.{stored_low, stored_high};
ghost use Rattle.cmaf_read_set.specs.Gatherable.{Gatherable};

use crate::entries;
use byte_parts::Part;
use cmaf_read_moof::defaults::Defaults;
use cmaf_read_moof::headers;
use cmaf_read_samples::cells::Way;
use cmaf_read_samples::{cells, sizes};
use cmaf_read_shape::inner::Inner;
use cmaf_read_shape::words;
use cmaf_read_trun::rows;
use cmaf_read_trun::rows::Run;
use field_table::lines;
use media::flags::SampleFlags;
use track::Track;

// The first sample's flags, of five bits.
fn first_five(c: &[u8], trun: Part) -> u64
    requires { Inside c.now trun × (trun_ok c.now trun ≡ true) }
    ensures { result ≡ five_of (first_flags c.now trun) }
{
    SampleFlags(rows::first_flags(c, trun) as u32).five()
}

// Ids 1 to 4.
fn put_low(t: Track, c: &[u8], d: Defaults, r: Run, equal: bool, x: &mut [u64])
    requires sized { Sized c.now r d.size }
    requires x_len { length x.old ≡ set_len }
    ensures { x.new ≡ stored_low t c.now d r equal x.old }
{
    sizes::put_sizes(c, r, d.size, equal, &mut *x);
    cells::put_one(
        &mut *x,
        lines::DESCRIPTION,
        d.description != t.description as u64,
        d.description,
    );
    cells::put_column(c, r, rows::DURATIONS, Way::Plain, &mut *x, lines::DURATIONS);
    cells::put_one(
        &mut *x,
        lines::DURATION,
        d.duration != t.duration as u64,
        d.duration,
    );
}

// Ids 5 to 8.
fn put_high(t: Track, c: &[u8], d: Defaults, r: Run, equal: bool, x: &mut [u64])
    requires sized { Sized c.now r d.size × (d.flags < 2 ^ 32) }
    requires x_len { length x.old ≡ set_len }
    ensures { x.new ≡ stored_high t c.now d r equal x.old }
{
    let five = SampleFlags(d.flags as u32).five();
    cells::put_column(c, r, rows::OFFSETS, Way::Raised, &mut *x, lines::OFFSETS);
    sizes::put_size(t, c, r, d.size, equal, &mut *x);
    cells::put_column(c, r, rows::FLAGS, Way::Five, &mut *x, lines::FLAGS);
    cells::put_one(&mut *x, lines::DEFAULT_FLAGS, five != t.flags as u64, five);
}

// The set of the chunk into words that are zeros.
pub fn put_set(t: Track, c: &[u8], f: Inner, d: Defaults, x: &mut [u64])
    requires gatherable { Gatherable t c.now f }
    requires x_value { x.old ≡ replicate set_len 0 }
    requires d_value { (d ≡ defaults_of t c.now f.tfhd) × Narrow d }
    ensures { x.new ≡ chunk_set t c.now f }
{
    let tfdt = f.tfdt;
    let trun = f.trun;
    let r = rows::run_of(c, trun);
    let equal = sizes::all_equal(c, r, d.size);
    let first = first_five(c, trun);
    x[lines::BMDT] = headers::bmdt_of(c, tfdt).0;
    x[lines::COUNT] = r.count;
    put_low(t, c, d, r, equal, &mut *x);
    put_high(t, c, d, r, equal, &mut *x);
    cells::put_one(
        &mut *x,
        lines::FIRST_FLAGS,
        words::bit(r.word, rows::FIRST) == 1,
        first,
    );
    entries::put_protection(t, c, f, &mut *x);
}
