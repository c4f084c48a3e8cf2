// The canonical bytes of a value that stands in a text which is known to be one.
#![tactic(auto)]

mod bytes;
mod collect;
mod skip;
pub mod write;

// A place in the text and one in the output.
#[derive(Clone, Copy)]
pub struct Spot {
    pub at: usize,
    pub pos: usize,
}
