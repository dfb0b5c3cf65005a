// Some of the bytes that were lent: a box of a chunk, the body of a tuple of an object.
#![tactic(auto)]

// Where they stand, and how many.
#[derive(Clone, Copy)]
pub struct Part {
    pub at: usize,
    pub len: usize,
}
