// Numbers on the wire: varints by a form's table, and zigzag distances.
#![tactic(auto)]

pub mod form; // form.rt: the table of a form, and the row that a first byte or a value is in
pub mod varint; // varint.rt: reading, measuring and writing one varint
pub mod zigzag; // zigzag.rt: the number on the wire for a value, and the value for a number
