// The rules on the samples of a `trun`.
// Letters: `c` a chunk's bytes, `r` the rows of the `trun`.
ghost use Rattle.std.specs.Prelude.{◌≡◌, true, ◌<◌, ◌^◌};
ghost use Rattle.cmaf_read_shape.specs.Parts.{Inside};
ghost use Rattle.cmaf_read_trun.specs.Rows.{trun_ok};
ghost use Rattle.cmaf_read_trun.specs.Columns.{FewRows};
ghost use Rattle.cmaf_read_rules.specs.Rules.{flags_ok, offsets_ok, sizes_ok};

use byte_parts::Part;
use cmaf_read_trun::rows::Run;
use cmaf_read_trun::{columns, rows};

// Every flags field that stands is plain, whether or not it has an effect; the default is what the `tfhd` has, or the track.
pub fn flags_ok(c: &[u8], trun: Part, default: u64, r: Run) -> bool
    requires inside { Inside c.now trun × (trun_ok c.now trun ≡ true) }
    requires few_rows { FewRows c.now r × (default < 2 ^ 32) }
    ensures { result ≡ flags_ok c.now trun default r }
{
    (columns::plain(default) & columns::plain(rows::first_flags(c, trun)))
        & columns::column_plain(c, r)
}

// A composition offset of version 0 has no sign and must be below 2^31; one of version 1 is always in range.
pub fn offsets_ok(c: &[u8], r: Run) -> bool
    requires { FewRows c.now r }
    ensures { result ≡ offsets_ok c.now r }
{
    if r.word / 0x100_0000 == 1 {
        return true;
    }
    columns::column_low(c, r)
}

// Without samples the `trun` has only its data offset; that the payload is empty then, the sum of no sizes says.
pub fn sizes_ok(c: &[u8], mdat: Part, default: u64, r: Run) -> bool
    requires inside { Inside c.now mdat }
    requires few_rows { FewRows c.now r × (default < 2 ^ 32) }
    ensures { result ≡ sizes_ok c.now mdat default r }
{
    let payload = cmaf_read_shape::parts::body(mdat);
    let bare = r.word % 0x100_0000 == 0x1;
    (columns::sizes_sum(c, r, default) == payload.len as u64) & ((r.count != 0) | bare)
}
