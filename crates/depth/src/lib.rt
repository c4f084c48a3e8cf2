// `Depth` of market_data.rs in arrays.
#![tactic(auto)]

pub mod changes;
pub mod columns;
pub mod reads;
pub mod tested;

use levels::Level;

// The best level first; places from the count on are free.
#[derive(Clone, Copy)]
pub struct Side {
    pub levels: [Level; 512],
    pub count: usize,
}

#[derive(Clone, Copy)]
pub struct Depth {
    pub bids: Side,
    pub asks: Side,
}
