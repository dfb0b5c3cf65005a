// `trun` as it is read: its version, flags and length, what it says, and the rules on its data offset and its columns.
#![tactic(auto)]

pub mod rows; // rows.rt: the box, its data offset, and a cell of its rows
pub mod columns; // columns.rt: a column, or the sizes, from the first sample to the last
