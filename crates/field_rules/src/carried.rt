// Which fields of the reference are carried on into the new set.
ghost use Rattle.std.specs.Prelude.{◌≡◌};
ghost use Rattle.field_rules.specs.Carried.{carried_by};

// A field of which the object says nothing is carried on if its required length is unchanged: by the lengths in the reference and in the new set.
pub fn carries(old: usize, new: usize) -> bool
    ensures { result ≡ carried_by old new }
{
    old == new
}
