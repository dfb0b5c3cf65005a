// Which fields of the reference an object has to delete.
ghost use Rattle.std.specs.Prelude.{◌≡◌};
ghost use Rattle.field_rules.specs.Vanished.{vanished_by};

// A field vanished if there is a reference that has it, and the new set hasn't: by the marks of the two.
pub fn vanished(held: bool, old: u64, new: u64) -> bool
    ensures { result ≡ vanished_by held old new }
{
    held & ((old != 0) & (new == 0))
}
