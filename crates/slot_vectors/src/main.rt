// Prints what the calls on a table of slots answer: on a fresh table, on lawful shares, and on shares of which one word is damaged. The
// stored output is made by generators/slot_vectors.py, which knows the rules and the layout from their text and nothing of this code.
#![tactic(auto)]

use slots::lawful::Side;
use std::io;

mod calls; // calls.rt: calls on the table, and what is printed of them
mod damage; // damage.rt: shares of which one word is damaged
mod fresh; // fresh.rt: calls on a fresh table
mod shares; // shares.rt: lawful shares, filled by hand
mod text; // text.rt: how lines begin, and what stands in them

fn main(rt: HostRuntime) -> io::Result<()> {
    fresh::print(&rt, Side::Encoder)?;
    fresh::print(&rt, Side::Receiver)?;
    damage::print(&rt, Side::Encoder)?;
    damage::print(&rt, Side::Receiver)?;
    println!(&rt)
}
