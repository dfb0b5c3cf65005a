// Prints what varints and runs of them give at the edges of their ranges. The stored output is made by generators/wire_vectors.py, which knows
// the rules from their text and nothing of this code.
#![tactic(auto)]

use std::io;

mod lists; // lists.rt: lists against old ones
mod made; // made.rt: runs made by hand
mod numbers; // numbers.rt: single varints, written, read, cut and padded
mod powers; // powers.rt: the powers of two at which the cases stand
mod run_lines; // run_lines.rt: what is printed of a run
mod text; // text.rt: the words that are printed, and bytes behind one

fn main(rt: HostRuntime) -> io::Result<()> {
    numbers::powers(&rt)?;
    numbers::edges(&rt)?;
    numbers::padded(&rt)?;
    numbers::places(&rt)?;
    lists::short_lists(&rt)?;
    lists::wide_lists(&rt)?;
    lists::long_lists(&rt)?;
    made::troubles(&rt)?;
    made::empty(&rt)?;
    made::distances(&rt)
}
