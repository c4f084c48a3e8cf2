// Where a price stands in a side.
ghost use Rattle.std.specs.Prelude.{◌≡◌, ◌&&◌, ◌≤◌, ltb, eqb, get_or};
ghost use Rattle.levels.specs.Work.{Falling, Place, Through};

use crate::tests::better;

pub fn place(prices: &[u32; 512], count: usize, falling: bool, price: u32) -> usize
    requires { (count ≤ 512) × Falling falling prices.now count }
    ensures { Place falling prices.now count price result }
{
    prices[..count].partition_point(|p| better(falling, *p, price))
}

// Whether the price itself stands at its place.
pub fn standing(prices: &[u32; 512], count: usize, at: usize, price: u32) -> bool
    requires { count ≤ 512 }
    ensures { result ≡ (ltb at count && eqb (get_or prices.now at 0) price) }
{
    at < count && prices[at] == price
}

// How many levels are at a price or better.
pub fn through(prices: &[u32; 512], count: usize, falling: bool, price: u32) -> usize
    requires { (count ≤ 512) × Falling falling prices.now count }
    ensures { Through falling prices.now count price result }
{
    let at = place(prices, count, falling, price);
    if standing(prices, count, at, price) {
        at + 1
    } else {
        at
    }
}
