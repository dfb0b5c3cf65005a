// The parts of the input, and the commands of each.
ghost use Rattle.std.specs.Prelude.{length};
ghost use Rattle.std.specs.Iterator.{at_most};

use crate::results;
use commands::command;
use commands::command::Command;
use share_words::share::TABLE;
use slots::lawful::Side;
use std::io;

// The commands of some bytes, one after another, each with its own bytes. None comes behind one that is cut, nor is that one answered.
#[derive(Drop)]
struct Commands<'a>(&'a [u8]);

impl<'a> Iterator for Commands<'a> {
    type Item = (Command, &'a [u8]);

    ghost remaining = { λ s. at_most (length s.0.now) };

    fn next(&mut self) -> Option<(Command, &'a [u8])> {
        let input = self.0;
        if input.is_empty() {
            return None;
        }
        let c = command::command_at(input, 0);
        let at = c.at;
        let next = c.next;
        self.0 = &input[next..];
        if c.whole {
            Some((c, &input[at..next]))
        } else {
            None
        }
    }
}

// A part: its commands on a fresh table.
fn run_part<R: Print + AllocGlobal>(rt: &R, side: Side, part: &[u8]) -> io::Result<()> {
    let mut table = vec![in rt.alloc(); 0u64; TABLE]?;
    for (c, bytes) in Commands(part) {
        results::answer(rt, side, &mut table, c.call, c.slot, c.value, bytes)?;
    }
    Ok(())
}

// All parts of the input.
pub fn run_all<R: Print + AllocGlobal>(rt: &R, input: &[u8]) -> io::Result<()> {
    for (c, part) in Commands(input) {
        let side = if c.call == b'e' {
            Side::Encoder
        } else {
            Side::Receiver
        };
        run_part(rt, side, part)?;
    }
    Ok(())
}
