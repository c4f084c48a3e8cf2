// A level set, and both sides trimmed.
ghost use Rattle.std.specs.Prelude.{◌≡◌, true, OnErr};
ghost use Rattle.levels.specs.Depth as Rules;
ghost use Rattle.levels.specs.Depth.{side_sound, set_side, trim_side};
ghost use Rattle.depth.specs.Value.{side_by_value, book_of, said};

use crate::columns::{join, split};
use crate::{Depth, Side};
use levels::{Refusal, side};

impl Side {
    fn set(&mut self, bid: bool, price: u32, size: f64) -> Result<(), Refusal>
        requires { side_sound bid (side_by_value self.old) ≡ true }
        ensures answer { said (λ _. side_by_value self.new) result ≡ set_side bid price size (side_by_value self.old) }
        ensures refused { OnErr result (self.new ≡ self.old) }
    {
        let mut columns = split(self);
        let count = side::set(
            &mut columns.prices,
            &mut columns.sizes,
            self.count,
            bid,
            price,
            size,
        )?;
        self.levels = join(&columns, count);
        self.count = count;
        Ok(())
    }

    fn trim(&mut self, bid: bool, best: Option<u32>)
        requires { side_sound bid (side_by_value self.old) ≡ true }
        ensures { side_by_value self.new ≡ trim_side bid best (side_by_value self.old) }
    {
        let columns = split(self);
        let count = side::trim(&columns.prices, self.count, bid, best);
        self.levels = join(&columns, count);
        self.count = count;
    }
}

impl Depth {
    // Sets a level's size; size zero, of either sign, removes the level. Refused, the depth stays.
    pub fn set(&mut self, bid: bool, price: u32, size: f64) -> Result<(), Refusal>
        ensures answer { said (λ _. book_of self.new) result ≡ Rules.set bid price size (book_of self.old) }
        ensures refused { OnErr result (self.new ≡ self.old) }
    {
        self.tested()?;
        if bid {
            self.bids.set(true, price, size)
        } else {
            self.asks.set(false, price, size)
        }
    }

    // Drops every level better than the reported best, or the side where none is reported. Refused, the depth stays.
    pub fn trim(&mut self, best_bid: Option<u32>, best_ask: Option<u32>) -> Result<(), Refusal>
        ensures answer { said (λ _. book_of self.new) result ≡ Rules.trim best_bid best_ask (book_of self.old) }
        ensures refused { OnErr result (self.new ≡ self.old) }
    {
        self.tested()?;
        self.bids.trim(true, best_bid);
        self.asks.trim(false, best_ask);
        Ok(())
    }
}
