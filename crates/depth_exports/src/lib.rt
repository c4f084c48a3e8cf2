// The calls on a depth for a host in C or Rust. A side is two arrays of 512 and a count: the prices and the sizes of its levels, the best
// last. The arrays and pointers of one call may not overlap. A call answers 1, or 0 where it is refused, with the refusal's number
// behind its first pointer to a count. Arrays beside counts, and numbers for answers: the C interface (host/include/pollendrift_depth.h).
#![tactic(auto)]

pub mod owned;
pub mod reads;

ghost use Rattle.std.specs.Prelude.{◌≡◌};
ghost use Rattle.levels.specs.Depth as Rules;
ghost use Rattle.levels.specs.Work.{number_of};
ghost use Rattle.depth_exports.specs.Told.{arrays, book_in, told, told_set, Tells, Same, reported_by};

use levels::{Refusal, side};

pub fn sound(
    bid_prices: &[u32; 512],
    bid_sizes: &[f64; 512],
    bids: usize,
    ask_prices: &[u32; 512],
    ask_sizes: &[f64; 512],
    asks: usize,
) -> bool
    ensures { result ≡ Rules.sound (book_in (arrays bid_prices.now bid_sizes.now
        ask_prices.now ask_sizes.now) bids asks) }
{
    side::sound(bid_prices, bid_sizes, bids, true)
        && side::sound(ask_prices, ask_sizes, asks, false)
}

// Sets a level's size; size zero, of either sign, removes the level. `count` is then the new count of its side.
#[unsafe(no_mangle)]
pub extern "C" fn depth_set(
    bid_prices: &mut [u32; 512],
    bid_sizes: &mut [f64; 512],
    bids: usize,
    ask_prices: &mut [u32; 512],
    ask_sizes: &mut [f64; 512],
    asks: usize,
    bid: bool,
    price: u32,
    size: f64,
    count: &mut u64,
) -> u64
    ensures { (told_set bid result count.new
        (arrays bid_prices.new bid_sizes.new ask_prices.new ask_sizes.new) bids asks
        ≡ Rules.set bid price size (book_in (arrays bid_prices.old bid_sizes.old
        ask_prices.old ask_sizes.old) bids asks))
        × Same result (arrays bid_prices.old bid_sizes.old ask_prices.old ask_sizes.old)
        (arrays bid_prices.new bid_sizes.new ask_prices.new ask_sizes.new) }
{
    if !sound(bid_prices, bid_sizes, bids, ask_prices, ask_sizes, asks) {
        return refused(Refusal::Unsound, count);
    }
    if bid {
        let answer = side::set(bid_prices, bid_sizes, bids, true, price, size);
        of_set(answer, count)
    } else {
        let answer = side::set(ask_prices, ask_sizes, asks, false, price, size);
        of_set(answer, count)
    }
}

// What a call answers where it is refused.
pub fn refused(refusal: Refusal, count: &mut u64) -> u64
    ensures code { result ≡ 0 }
    ensures number { count.new ≡ number_of refusal }
{
    *count = refusal.number();
    0
}

// What a level set is answered.
pub fn of_set(answer: Result<usize, Refusal>, count: &mut u64) -> u64
    ensures { Tells answer result count.new }
{
    match answer {
        Ok(n) => {
            *count = n as u64;
            1
        }
        Err(refusal) => refused(refusal, count),
    }
}

// Drops every level better than the best that is reported for its side, or the side where none is: by its count, no place changes.
#[unsafe(no_mangle)]
pub extern "C" fn depth_trim(
    bid_prices: &[u32; 512],
    bid_sizes: &[f64; 512],
    bids: usize,
    ask_prices: &[u32; 512],
    ask_sizes: &[f64; 512],
    asks: usize,
    bid_reported: bool,
    best_bid: u32,
    ask_reported: bool,
    best_ask: u32,
    bid_count: &mut u64,
    ask_count: &mut u64,
) -> u64
    ensures { (told result bid_count.new (book_in
        (arrays bid_prices.now bid_sizes.now ask_prices.now ask_sizes.now)
        bid_count.new ask_count.new)
        ≡ Rules.trim (reported_by bid_reported best_bid) (reported_by ask_reported best_ask) (book_in
        (arrays bid_prices.now bid_sizes.now ask_prices.now ask_sizes.now) bids asks))
        × Same result ask_count.old ask_count.new }
{
    if !sound(bid_prices, bid_sizes, bids, ask_prices, ask_sizes, asks) {
        return refused(Refusal::Unsound, bid_count);
    }
    let b = side::trim(bid_prices, bids, true, bid_reported.then_some(best_bid));
    let a = side::trim(ask_prices, asks, false, ask_reported.then_some(best_ask));
    *bid_count = b as u64;
    *ask_count = a as u64;
    1
}
