// One field of the set. Its words are zeros before; a field that doesn't stand leaves them so.
// Letters: `x` the words of the new set, `v` a number, `c` a chunk's bytes, `r` the rows of the `trun`.
ghost use Rattle.std.specs.Prelude.{◌≡◌, true, [], ◌∷◌, ◌+◌, ◌≤◌, ◌<◌, ◌^◌, length};
ghost use Rattle.std.proofs.lemmas.List.Edits.{sets};
ghost use Rattle.constants.specs.Maxima.{samples_most};
ghost use Rattle.field_rules.specs.Fields.{words_of};
ghost use Rattle.cmaf_read_trun.specs.Rows.{is_column};
ghost use Rattle.cmaf_read_trun.specs.Columns.{FewRows};
ghost use Rattle.cmaf_read_samples.specs.Held.{held_if};
ghost use Rattle.cmaf_read_samples.specs.Ways.{value_of, column_words};

use cmaf_read_trun::rows;
use cmaf_read_trun::rows::Run;
use media::flags::SampleFlags;

// How a column's value stands in the set: as it is, with 2^31 added to a signed number, or as flags of five bits.
#[derive(Clone, Copy)]
pub enum Way {
    Plain,
    Raised,
    Five,
}

// A signed number of 32 bits with 2^31 added is the same number with its highest bit turned, and so is one without a sign below 2^31.
fn value(way: Way, v: u64) -> u64
    requires { v < 2 ^ 32 }
    ensures { result ≡ value_of way v }
{
    match way {
        Way::Plain => v,
        Way::Raised => (v + 0x8000_0000) % 0x1_0000_0000,
        Way::Five => SampleFlags(v as u32).five(),
    }
}

// A field of one value, where it stands.
pub fn put_one(x: &mut [u64], place: usize, stands: bool, v: u64)
    requires { place + 2 ≤ length x.old }
    ensures { x.new ≡ sets x.old place (words_of (held_if stands (v ∷ []))) }
{
    if stands {
        x[place] = 1;
        x[place + 1] = v;
    }
}

// A field with a value for each sample, where the `trun` has its column.
pub fn put_column(c: &[u8], r: Run, column: u64, way: Way, x: &mut [u64], place: usize)
    requires few_rows { FewRows c.now r }
    requires column_value { is_column column ≡ true }
    requires samples_most_in_bounds { place + 1 + samples_most ≤ length x.old }
    ensures { x.new ≡ sets x.old place (column_words way c.now r column) }
{
    if !rows::has(r, column) {
        return;
    }
    x[place] = 1;
    let n = r.count as usize;
    for i in 0..n {
        x[place + 1 + i] = value(way, rows::cell(c, r, column, i));
    }
}
