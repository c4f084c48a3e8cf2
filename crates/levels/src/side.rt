// A side: the level farthest out lies first, the best last, so that a change near the best moves little. Bids then rise, and asks fall.
ghost use Rattle.std.specs.Prelude.{◌≡◌, true, false, not, ◌≤◌};
ghost use Rattle.levels.specs.Depth.{side_sound, set_side, bid_depth_from, ask_depth_to};
ghost use Rattle.levels.specs.Work.{side_in, Falling, as_side, Stays, Trims};

use crate::search::{place, through};
use crate::sums::{sum_down, sum_up};
use crate::tests::ordered_sound;
use crate::{Refusal, ordered};

pub fn sound(prices: &[u32; 512], sizes: &[f64; 512], count: usize, bid: bool) -> bool
    ensures { result ≡ side_sound bid (side_in prices.now sizes.now count) }
{
    ordered_sound(prices, sizes, count, !bid)
}

// Inlined into each export: a call would hand the `Result` back through memory.
#[inline(always)]
pub fn set(
    prices: &mut [u32; 512],
    sizes: &mut [f64; 512],
    count: usize,
    bid: bool,
    price: u32,
    size: f64,
) -> Result<usize, Refusal>
    requires { side_sound bid (side_in prices.old sizes.old count) ≡ true }
    ensures { (as_side result prices.new sizes.new
        ≡ set_side bid price size (side_in prices.old sizes.old count))
        × Stays result prices.old sizes.old prices.new sizes.new }
{
    ordered::set(prices, sizes, count, !bid, price, size)
}

// The new count; no place changes.
pub fn trim(prices: &[u32; 512], count: usize, bid: bool, best: Option<u32>) -> usize
    requires { (count ≤ 512) × Falling (not bid) prices.now count }
    ensures { Trims bid best prices.now count result }
{
    match best {
        Some(price) => through(prices, count, !bid, price),
        None => 0,
    }
}

// Bid size priced at or above a price.
pub fn bid_depth_from(prices: &[u32; 512], sizes: &[f64; 512], count: usize, floor: u32) -> f64
    requires { side_sound true (side_in prices.now sizes.now count) ≡ true }
    ensures { result ≡ bid_depth_from floor (side_in prices.now sizes.now count) }
{
    let at = place(prices, count, false, floor);
    sum_up(sizes, at, count)
}

// Ask size priced at or below a price. Asks fall, so they are added from the last to the first.
pub fn ask_depth_to(prices: &[u32; 512], sizes: &[f64; 512], count: usize, ceiling: u32) -> f64
    requires { side_sound false (side_in prices.now sizes.now count) ≡ true }
    ensures { result ≡ ask_depth_to ceiling (side_in prices.now sizes.now count) }
{
    let at = place(prices, count, true, ceiling);
    sum_down(sizes, at, count)
}
