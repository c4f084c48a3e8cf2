// Price levels of a token, a side at a time, in two lent arrays: the prices and the sizes of its levels, the best last. Places from the
// count on are free. Whoever calls the work here has tested the side, or keeps it to himself.
#![tactic(auto)]

pub mod ordered;
pub mod refusal;
pub mod room;
pub mod search;
pub mod side;
pub mod sums;
pub mod tests;

pub use refusal::Refusal;

// A price in millionths, and the size that rests there.
#[derive(Clone, Copy)]
pub struct Level {
    pub price: u32,
    pub size: f64,
}
