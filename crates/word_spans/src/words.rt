// Words moved from one run to another.
// Letters: `r` the words of the reference's set, `n` how many, `x` the words of the new set.
ghost use Rattle.std.specs.Prelude.{◌≡◌, ◌+◌, ◌≤◌, length};
ghost use Rattle.std.proofs.Math.Seq.{slice};
ghost use Rattle.std.proofs.lemmas.List.Edits.{sets};

// The n words of r from a place on, into x from another place on.
pub fn copy(r: &[u64], from: usize, n: usize, x: &mut [u64], to: usize)
    requires { (from + n ≤ length r.now) × (to + n ≤ length x.old) }
    ensures { x.new ≡ sets x.old to (slice from (from + n) r.now) }
{
    // Counted, so that it is the memcpy that a host has in any case; a slice's own copy asks for memmove.
    for i in 0..n {
        x[to + i] = r[from + i];
    }
}
