// A command: a letter, the slot, a number and a length of eight bytes each, and as many bytes as the length says.
// Letters: `p` a place.
ghost use Rattle.std.specs.Prelude.{◌≡◌, ◌<◌, length};
ghost use Rattle.commands.specs.Command.{cut_at, command_at, Placed};

use cmaf_read_tree::numbers;

const HEAD: usize = 25;

// Its bytes stand from one place up to another, where the next command starts. One that the input's end cuts is not whole and has no bytes,
// and nothing comes after it.
#[derive(Clone, Copy)]
pub struct Command {
    pub whole: bool,
    pub call: u8,
    pub slot: u64,
    pub value: u64,
    pub at: usize,
    pub next: usize,
}

fn cut(end: usize) -> Command
    ensures { result ≡ cut_at end }
{
    Command {
        whole: false,
        call: 0,
        slot: 0,
        value: 0,
        at: end,
        next: end,
    }
}

// The command at the place p.
pub fn command_at(input: &[u8], p: usize) -> Command
    requires { p < length input.now }
    ensures { (result ≡ command_at input.now p) × Placed input.now p result }
{
    let end = input.len();
    if end - p < HEAD {
        return cut(end);
    }
    let at = p + HEAD;
    let n = numbers::u64_at(input, p + 17);
    if ((end - at) as u64) < n {
        return cut(end);
    }
    Command {
        whole: true,
        call: input[p],
        slot: numbers::u64_at(input, p + 1),
        value: numbers::u64_at(input, p + 9),
        at,
        next: at + n as usize,
    }
}
