// A column of a `trun`, or the sizes of its samples, from the first sample to the last. The count keeps its maximum by now, so no loop is longer than 64.
// Letters: `c` a chunk's bytes, `r` the rows of the `trun`.
ghost use Rattle.std.specs.Prelude.{◌≡◌, ℕ, ◌<◌, ◌^◌, Bool, true};
ghost use Rattle.laws.specs.Tests.{all_le, sum};
ghost use Rattle.media.specs.Flags.{only};
ghost use Rattle.cmaf_read_trun.specs.Rows.{sample_flags, offsets, is_column};
ghost use Rattle.cmaf_read_trun.specs.Samples.{column_of, sizes_of};
ghost use Rattle.cmaf_read_trun.specs.Columns.{all_by, all_only, offset_most, FewRows};

use crate::rows;
use crate::rows::Run;
use media::flags::SampleFlags;

// The largest composition offset.
const OFFSET: u64 = 0x7fff_ffff;

// Whether flags, as 32 bits, have only the three fields that a sample may have.
pub fn plain(flags: u64) -> bool
    requires { flags < 2 ^ 32 }
    ensures { result ≡ only flags }
{
    let word = flags as u32;
    SampleFlags(word).is_plain()
}

// Whether a test holds of all that stands in a column; of a column that doesn't stand it does. No test keeps another from being made, so that the
// loop has no way out but its end.
fn column_all<F: Fn(u64) -> bool>(c: &[u8], r: Run, column: u64, test: F) -> bool
    requires few_rows { FewRows c.now r }
    requires column_value { is_column column ≡ true }
    requires callable { (v : ℕ) → v < 2 ^ 32 → F.pre test v }
    ensures { (holds : ℕ → Bool) → ((v : ℕ) (b : Bool) → v < 2 ^ 32 → F.post test v b → b ≡ holds v) → result ≡ all_by holds (column_of c.now r column) }
{
    if !rows::has(r, column) {
        return true;
    }
    let n = r.count as usize;
    let mut ok = true;
    for i in 0..n {
        ok = ok & test(rows::cell(c, r, column, i));
    }
    ok
}

// Every sample's own flags are plain.
pub fn column_plain(c: &[u8], r: Run) -> bool
    requires { FewRows c.now r }
    ensures { result ≡ all_only (column_of c.now r sample_flags) }
{
    column_all(c, r, rows::FLAGS, |flags| plain(flags))
}

// Whether the composition offsets are below 2^31.
pub fn column_low(c: &[u8], r: Run) -> bool
    requires { FewRows c.now r }
    ensures { result ≡ all_le offset_most (column_of c.now r offsets) }
{
    column_all(c, r, rows::OFFSETS, |offset| offset <= OFFSET)
}

// The sizes of all samples, added up.
pub fn sizes_sum(c: &[u8], r: Run, default: u64) -> u64
    requires few_rows { FewRows c.now r }
    requires default_bound { default < 2 ^ 32 }
    ensures { result ≡ sum (sizes_of c.now r default) }
{
    let n = r.count as usize;
    let mut sum = 0;
    for i in 0..n {
        sum += rows::size_at(c, r, default, i);
    }
    sum
}
