// The sizes of the samples, as a list or as one value.
// Letters: `c` a chunk's bytes, `r` the rows of the `trun`, `x` the words of the new set, `t` the track.
ghost use Rattle.std.specs.Prelude.{◌≡◌, length};
ghost use Rattle.std.proofs.lemmas.List.Edits.{sets};
ghost use Rattle.field_table.specs.Lines.{sizes_at, size_at, set_len};
ghost use Rattle.field_rules.specs.Fields.{words_of};
ghost use Rattle.cmaf_read_samples.specs.Sizes.{equal_sizes, sizes_held, size_held, Sized};

use crate::cells;
use cmaf_read_trun::rows;
use cmaf_read_trun::rows::Run;
use field_table::lines;
use track::Track;

// Whether all samples have the first one's size.
pub fn all_equal(c: &[u8], r: Run, default: u64) -> bool
    requires { Sized c.now r default }
    ensures { result ≡ equal_sizes c.now r default }
{
    let n = r.count as usize;
    let mut ok = true;
    for i in 1..n {
        ok = ok & (rows::size_at(c, r, default, i) == rows::size_at(c, r, default, 0));
    }
    ok
}

// Several samples of unequal sizes: those of all but the last are a list.
pub fn put_sizes(c: &[u8], r: Run, default: u64, equal: bool, x: &mut [u64])
    requires sized { Sized c.now r default }
    requires x_len { length x.old ≡ set_len }
    ensures { x.new
        ≡ sets x.old sizes_at (words_of (sizes_held c.now r default equal)) }
{
    if (r.count < 2) | equal {
        return;
    }
    x[lines::SIZES] = 1;
    let n = r.count as usize - 1;
    for i in 0..n {
        x[lines::SIZES + 1 + i] = rows::size_at(c, r, default, i);
    }
}

// Several samples of one size: a value, which is left out where the track has it; but a size of 0 never is.
pub fn put_size(t: Track, c: &[u8], r: Run, default: u64, equal: bool, x: &mut [u64])
    requires sized { Sized c.now r default }
    requires x_len { length x.old ≡ set_len }
    ensures { x.new
        ≡ sets x.old size_at (words_of (size_held c.now r default t.size equal)) }
{
    if (r.count < 2) | !equal {
        return;
    }
    let size = rows::size_at(c, r, default, 0);
    cells::put_one(
        x,
        lines::SIZE,
        !((size == t.size as u64) & (size != 0)),
        size,
    );
}
