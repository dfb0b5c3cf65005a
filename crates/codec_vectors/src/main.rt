// Runs commands on the tables of receivers and encoders, and prints what each answers. The input has parts, each of which is a command itself: `r` or `e`, and as
// its bytes the commands for the fresh table of a receiver or an encoder. Input and stored output are made by generators/codec_vectors.py, which asks another
// implementation of the rules.
#![tactic(auto)]

use std::io;
use std::io::Read;

mod results; // results.rt: what a command on a table answers
mod chunks; // chunks.rt: what an encoder answers to a chunk
mod objects; // objects.rt: what a receiver answers to an object
mod parts; // parts.rt: the parts of the input, and the commands of each

// The bytes of the input that are read; what comes after is left.
const INPUT: u64 = 1048576;

fn main(rt: HostRuntime) -> io::Result<()> {
    let mut input = Vec::new(rt.alloc());
    rt.stdin().take(INPUT).read_to_end(&mut input)?;
    parts::run_all(&rt, &input)
}
