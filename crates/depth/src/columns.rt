// A side's levels as an array of prices and one of sizes, the best level last, as the work of crate levels is lent them; and back.
ghost use Rattle.std.specs.Prelude.{◌≤◌};
ghost use Rattle.depth.specs.Value.{Split};

use crate::Side;
use levels::Level;

#[derive(Clone, Copy)]
pub struct Columns {
    pub prices: [u32; 512],
    pub sizes: [f64; 512],
}

pub fn split(side: &Side) -> Columns
    requires { side.now.count ≤ 512 }
    ensures { Split side.now.levels side.now.count result.prices result.sizes side.now.count }
{
    let count = side.count;
    let mut prices = [0; 512];
    let mut sizes = [0.0; 512];
    for i in 0..count {
        let level = side.levels[count - 1 - i];
        prices[i] = level.price;
        sizes[i] = level.size;
    }
    Columns { prices, sizes }
}

pub fn join(columns: &Columns, count: usize) -> [Level; 512]
    requires { count ≤ 512 }
    ensures { Split result count columns.now.prices columns.now.sizes count }
{
    let none = Level {
        price: 0,
        size: 0.0,
    };
    let mut levels = [none; 512];
    for i in 0..count {
        levels[count - 1 - i] = Level {
            price: columns.prices[i],
            size: columns.sizes[i],
        };
    }
    levels
}
