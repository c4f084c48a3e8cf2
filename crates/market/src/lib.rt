// The calls on a sound store whose output list has room for what any call puts out.
#![tactic(auto)]

pub mod asking;
pub mod changes;
pub mod promoting;

use lines::Claim;

// A line that may be the source of a new book, and its claim.
#[derive(Clone, Copy, Debug, PartialEq, Eq)]
pub struct Source {
    pub line: usize,
    pub claim: Claim,
}
