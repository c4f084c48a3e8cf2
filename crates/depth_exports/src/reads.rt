// What a host asks of a depth, and is not handed by its own arrays.
ghost use Rattle.std.specs.Prelude.{◌≡◌, ◌≤◌};
ghost use Rattle.rules.specs.Answers.{value};
ghost use Rattle.levels.specs.Depth as Rules;
ghost use Rattle.levels.specs.Depth.{best_of};
ghost use Rattle.levels.specs.Work.{side_in};
ghost use Rattle.depth_exports.specs.Told.{arrays, book_in, told, told_best, Same};

use crate::{refused, sound};
use levels::{Refusal, side};

// Whether the depth is sound: then the levels of each side lie in its arrays, in order.
#[unsafe(no_mangle)]
pub extern "C" fn depth_check(
    bid_prices: &[u32; 512],
    bid_sizes: &[f64; 512],
    bids: usize,
    ask_prices: &[u32; 512],
    ask_sizes: &[f64; 512],
    asks: usize,
    count: &mut u64,
) -> u64
    ensures { told result count.new (book_in (arrays bid_prices.now bid_sizes.now
        ask_prices.now ask_sizes.now) bids asks)
        ≡ Rules.whole (book_in (arrays bid_prices.now bid_sizes.now
        ask_prices.now ask_sizes.now) bids asks) }
{
    if sound(bid_prices, bid_sizes, bids, ask_prices, ask_sizes, asks) {
        *count = 0;
        1
    } else {
        refused(Refusal::Unsound, count)
    }
}

// `found` counts the level, 0 or 1. Where there is none, `price` and `size` stay.
fn last(
    prices: &[u32; 512],
    sizes: &[f64; 512],
    count: usize,
    price: &mut u32,
    size: &mut f64,
    found: &mut u64,
)
    requires { count ≤ 512 }
    ensures { (told_best 1 found.new price.new size.new
        ≡ value (best_of (side_in prices.now sizes.now count)))
        × Same found.new price.old price.new × Same found.new size.old size.new }
{
    if 0 < count {
        *price = prices[count - 1];
        *size = sizes[count - 1];
        *found = 1;
    } else {
        *found = 0;
    }
}

#[unsafe(no_mangle)]
pub extern "C" fn depth_best(
    bid_prices: &[u32; 512],
    bid_sizes: &[f64; 512],
    bids: usize,
    ask_prices: &[u32; 512],
    ask_sizes: &[f64; 512],
    asks: usize,
    bid: bool,
    price: &mut u32,
    size: &mut f64,
    count: &mut u64,
) -> u64
    ensures { (told_best result count.new price.new size.new
        ≡ Rules.best bid (book_in (arrays bid_prices.now bid_sizes.now
        ask_prices.now ask_sizes.now) bids asks))
        × Same result price.old price.new × Same result size.old size.new
        × Same count.new price.old price.new × Same count.new size.old size.new }
{
    if !sound(bid_prices, bid_sizes, bids, ask_prices, ask_sizes, asks) {
        return refused(Refusal::Unsound, count);
    }
    if bid {
        last(bid_prices, bid_sizes, bids, price, size, count);
        1
    } else {
        last(ask_prices, ask_sizes, asks, price, size, count);
        1
    }
}

// Bid size priced at or above a price.
#[unsafe(no_mangle)]
pub extern "C" fn depth_bid_from(
    bid_prices: &[u32; 512],
    bid_sizes: &[f64; 512],
    bids: usize,
    ask_prices: &[u32; 512],
    ask_sizes: &[f64; 512],
    asks: usize,
    floor: u32,
    size: &mut f64,
    count: &mut u64,
) -> u64
    ensures { (told result count.new size.new
        ≡ Rules.bids_from floor (book_in (arrays bid_prices.now bid_sizes.now
        ask_prices.now ask_sizes.now) bids asks))
        × Same result size.old size.new }
{
    if !sound(bid_prices, bid_sizes, bids, ask_prices, ask_sizes, asks) {
        return refused(Refusal::Unsound, count);
    }
    *count = 0;
    *size = side::bid_depth_from(bid_prices, bid_sizes, bids, floor);
    1
}

// Ask size priced at or below a price.
#[unsafe(no_mangle)]
pub extern "C" fn depth_ask_to(
    bid_prices: &[u32; 512],
    bid_sizes: &[f64; 512],
    bids: usize,
    ask_prices: &[u32; 512],
    ask_sizes: &[f64; 512],
    asks: usize,
    ceiling: u32,
    size: &mut f64,
    count: &mut u64,
) -> u64
    ensures { (told result count.new size.new
        ≡ Rules.asks_to ceiling (book_in (arrays bid_prices.now bid_sizes.now
        ask_prices.now ask_sizes.now) bids asks))
        × Same result size.old size.new }
{
    if !sound(bid_prices, bid_sizes, bids, ask_prices, ask_sizes, asks) {
        return refused(Refusal::Unsound, count);
    }
    *count = 0;
    *size = side::ask_depth_to(ask_prices, ask_sizes, asks, ceiling);
    1
}
