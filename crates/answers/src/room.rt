// Whether the output has room for what is to be written.
ghost use Rattle.std.specs.Prelude.{◌≡◌};
ghost use Rattle.answers.specs.Room.{fits};

// Whether an output of so many bytes has room for as many as are needed.
pub fn has_room(need: usize, output: usize) -> bool
    ensures { result ≡ fits need output }
{
    need <= output
}
