// The boxes of protected samples, which stand last in the traf.
// Letters: `t` the track, `w` the words of a set.
ghost use Rattle.std.specs.Prelude.{◌≡◌, ◌||◌, ℕ, ◌+◌, ◌≤◌, length};
ghost use Rattle.laws.specs.Writes.{Wrote};
ghost use Rattle.field_table.specs.Lines.{set_len};
ghost use Rattle.field_set.specs.Lawful.{has};
ghost use Rattle.cmaf_write_senc.specs.Protection.{Protectable};
ghost use Rattle.cmaf_write_moof.specs.Moof.{protection};
ghost use Rattle.cmaf_write_moof.specs.Lengths.{protection_most};

use cmaf_write_saiz::saiz;
use cmaf_write_senc::senc;
use field_table::lines;
use track::Track;

// Whether the set has IVs or subsamples.
fn stands(w: &[u64]) -> bool
    requires { length w.now ≡ set_len }
    ensures { result ≡ (has 9 w.now || has 11 w.now) }
{
    (w[lines::IVS] != 0) | (w[lines::SUBSAMPLES] != 0)
}

// The length of the three boxes, or 0 where the set has neither IVs nor subsamples: what place they have doesn't matter.
pub fn protection_length(t: Track, w: &[u64]) -> usize
    requires { Protectable t w.now }
    ensures length { (place : ℕ) → result ≡ length (protection t w.now place) }
    ensures small { result ≤ protection_most }
{
    if !stands(w) {
        return 0;
    }
    senc::senc_length(t, w) + saiz::saiz_length(t, w) + 20
}

// The three boxes, where the set has IVs or subsamples; `place` is that of the `senc`, from the `moof` start.
pub fn put_protection(t: Track, w: &[u64], place: usize, out: &mut [u8], at: usize) -> usize
    requires protectable { Protectable t w.now }
    requires place_bound { place ≤ 100000 }
    requires place_in_bounds { at + length (protection t w.now place) ≤ length out.old }
    ensures { Wrote out.old at (protection t w.now place) out.new result }
{
    if !stands(w) {
        return at;
    }
    let a = senc::put_senc(t, w, out, at);
    let b = saiz::put_saiz(t, w, out, a);
    saiz::put_saio(place as u64 + 16, out, b)
}
