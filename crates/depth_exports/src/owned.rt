// The same work without the soundness test, for a host that keeps a side to itself: it asks for a sound side and leaves one. An empty
// side is one of count 0, whatever its arrays hold.
ghost use Rattle.std.specs.Prelude.{◌≡◌, true, false, not, ◌≤◌};
ghost use Rattle.levels.specs.Depth.{side_sound, set_side, bid_depth_from, ask_depth_to};
ghost use Rattle.levels.specs.Work.{side_in, Falling, Trims};
ghost use Rattle.depth_exports.specs.Told.{told, Same, reported_by};

use crate::of_set;
use levels::side;

#[unsafe(no_mangle)]
pub extern "C" fn owned_depth_set(
    prices: &mut [u32; 512],
    sizes: &mut [f64; 512],
    count: usize,
    bid: bool,
    price: u32,
    size: f64,
    left: &mut u64,
) -> u64
    requires { side_sound bid (side_in prices.old sizes.old count) ≡ true }
    ensures { (told result left.new (side_in prices.new sizes.new left.new)
        ≡ set_side bid price size (side_in prices.old sizes.old count))
        × Same result prices.old prices.new × Same result sizes.old sizes.new }
{
    let answer = side::set(prices, sizes, count, bid, price, size);
    of_set(answer, left)
}

// The new count; no place changes. Of a sound side it asks for the order of its prices alone.
#[unsafe(no_mangle)]
pub extern "C" fn owned_depth_trim(
    prices: &[u32; 512],
    count: usize,
    bid: bool,
    is_reported: bool,
    best: u32,
) -> usize
    requires { (count ≤ 512) × Falling (not bid) prices.now count }
    ensures { Trims bid (reported_by is_reported best) prices.now count result }
{
    side::trim(prices, count, bid, is_reported.then_some(best))
}

#[unsafe(no_mangle)]
pub extern "C" fn owned_depth_bid_from(
    prices: &[u32; 512],
    sizes: &[f64; 512],
    count: usize,
    floor: u32,
) -> f64
    requires { side_sound true (side_in prices.now sizes.now count) ≡ true }
    ensures { result ≡ bid_depth_from floor (side_in prices.now sizes.now count) }
{
    side::bid_depth_from(prices, sizes, count, floor)
}

#[unsafe(no_mangle)]
pub extern "C" fn owned_depth_ask_to(
    prices: &[u32; 512],
    sizes: &[f64; 512],
    count: usize,
    ceiling: u32,
) -> f64
    requires { side_sound false (side_in prices.now sizes.now count) ≡ true }
    ensures { result ≡ ask_depth_to ceiling (side_in prices.now sizes.now count) }
{
    side::ask_depth_to(prices, sizes, count, ceiling)
}
