// A level set in arrays whose prices fall, or rise.
ghost use Rattle.std.specs.Prelude.{◌≡◌, true, ◌≤◌, ◌<◌, ◌+◌, ◌-◌, ◌∷◌, ◌++◌, length, take, drop, set};
ghost use Rattle.levels.specs.Depth.{side_sound, set_side};
ghost use Rattle.levels.specs.Work.{levels_of, as_laid, Stays};

use crate::Refusal;
use crate::room::{close, open};
use crate::search::{place, standing};
use crate::tests::{price_allowed, size_allowed};

// A new level at its place.
fn insert(
    prices: &mut [u32; 512],
    sizes: &mut [f64; 512],
    count: usize,
    at: usize,
    price: u32,
    size: f64,
)
    requires { (at ≤ count) × (count < 512) }
    ensures { levels_of prices.new sizes.new (count + 1)
        ≡ take at (levels_of prices.old sizes.old count)
        ++ (record { price = price; size = size } ∷ drop at (levels_of prices.old sizes.old count)) }
{
    open(prices, at, count);
    open(sizes, at, count);
    prices[at] = price;
    sizes[at] = size;
}

// The level at a place goes.
fn remove(prices: &mut [u32; 512], sizes: &mut [f64; 512], count: usize, at: usize)
    requires { (at < count) × (count ≤ 512) }
    ensures { levels_of prices.new sizes.new (count - 1)
        ≡ take at (levels_of prices.old sizes.old count)
        ++ drop (at + 1) (levels_of prices.old sizes.old count) }
{
    close(prices, at, count);
    close(sizes, at, count);
}

#[inline(always)]
pub fn set(
    prices: &mut [u32; 512],
    sizes: &mut [f64; 512],
    count: usize,
    falling: bool,
    price: u32,
    size: f64,
) -> Result<usize, Refusal>
    requires { side_sound falling (levels_of prices.old sizes.old count) ≡ true }
    ensures { (as_laid result prices.new sizes.new
        ≡ set_side falling price size (levels_of prices.old sizes.old count))
        × Stays result prices.old sizes.old prices.new sizes.new }
{
    if !price_allowed(price) {
        return Err(Refusal::Price);
    }
    if !size_allowed(size) {
        return Err(Refusal::Size);
    }
    let at = place(prices, count, falling, price);
    if standing(prices, count, at, price) {
        if size == 0.0 {
            remove(prices, sizes, count, at);
            Ok(count - 1)
        } else {
            sizes[at] = size;
            Ok(count)
        }
    } else if size == 0.0 {
        Ok(count)
    } else if count < 512 {
        insert(prices, sizes, count, at, price, size);
        Ok(count + 1)
    } else {
        Err(Refusal::Full)
    }
}
