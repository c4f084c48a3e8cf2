// What may stand in a side.
ghost use Rattle.std.specs.Prelude.{◌≡◌, ◌&&◌, ◌+◌, ◌<◌, ◌≤◌, drop};
ghost use Rattle.levels.specs.Depth.{better, price_allowed, size_allowed, level_allowed, better_than_next, side_sound};
ghost use Rattle.levels.specs.Work.{level_in, levels_of};

pub fn better(bid: bool, p: u32, q: u32) -> bool
    ensures { result ≡ better bid p q }
{
    if bid { q < p } else { p < q }
}

pub fn price_allowed(price: u32) -> bool
    ensures { result ≡ price_allowed price }
{
    (1..=999_999).contains(&price)
}

// Every comparison with a NaN is false.
pub fn size_allowed(size: f64) -> bool
    ensures { result ≡ size_allowed size }
{
    0.0 <= size && size < f64::INFINITY
}

// A size of zero does not stand: it removes a level.
fn level_allowed(price: u32, size: f64) -> bool
    ensures { result ≡ level_allowed (record { price = price; size = size }) }
{
    price_allowed(price) && size_allowed(size) && size != 0.0
}

// Whether the level at a place may stand there, and is better than the one behind it.
fn stands(prices: &[u32; 512], sizes: &[f64; 512], count: usize, falling: bool, i: usize) -> bool
    requires { (i < count) × (count ≤ 512) }
    ensures { result ≡ (level_allowed (level_in prices.now sizes.now i)
        && better_than_next falling (level_in prices.now sizes.now i)
        (drop (i + 1) (levels_of prices.now sizes.now count))) }
{
    level_allowed(prices[i], sizes[i])
        && (i + 1 == count || better(falling, prices[i], prices[i + 1]))
}

pub fn ordered_sound(prices: &[u32; 512], sizes: &[f64; 512], count: usize, falling: bool) -> bool
    ensures { result ≡ side_sound falling (levels_of prices.now sizes.now count) }
{
    if 512 < count {
        return false;
    }
    for i in 0..count {
        if !stands(prices, sizes, count, falling, i) {
            return false;
        }
    }
    true
}
