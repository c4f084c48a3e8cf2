// Best prices, levels in order, and sums.
ghost use Rattle.std.specs.Prelude.{◌≡◌, ◌≤◌, true, false};
ghost use Rattle.levels.specs.Depth.{best, levels, bids_from, asks_to};
ghost use Rattle.depth.specs.Value.{side_by_value, book_of, said};

use crate::columns::split;
use crate::{Depth, Side};
use levels::{Level, Refusal, side};

impl Side {
    fn levels(&self) -> &[Level]
        requires { self.now.count ≤ 512 }
        ensures { result.now ≡ side_by_value self.now }
    {
        &self.levels[..self.count]
    }
}

impl Depth {
    // All bids, the best first.
    pub fn bid_levels(&self) -> Result<&[Level], Refusal>
        ensures { said (λ ls. ls.now) result ≡ levels true (book_of self.now) }
    {
        self.tested()?;
        Ok(self.bids.levels())
    }

    // All asks, the best first.
    pub fn ask_levels(&self) -> Result<&[Level], Refusal>
        ensures { said (λ ls. ls.now) result ≡ levels false (book_of self.now) }
    {
        self.tested()?;
        Ok(self.asks.levels())
    }

    pub fn best_bid(&self) -> Result<Option<Level>, Refusal>
        ensures { said (λ level. level) result ≡ best true (book_of self.now) }
    {
        let bids = self.bid_levels()?;
        Ok(bids.first().copied())
    }

    pub fn best_ask(&self) -> Result<Option<Level>, Refusal>
        ensures { said (λ level. level) result ≡ best false (book_of self.now) }
    {
        let asks = self.ask_levels()?;
        Ok(asks.first().copied())
    }

    // Bid size priced at or above a price.
    pub fn bid_depth_from(&self, floor: u32) -> Result<f64, Refusal>
        ensures { said (λ sum. sum) result ≡ bids_from floor (book_of self.now) }
    {
        self.tested()?;
        let columns = split(&self.bids);
        Ok(side::bid_depth_from(&columns.prices, &columns.sizes, self.bids.count, floor))
    }

    // Ask size priced at or below a price.
    pub fn ask_depth_to(&self, ceiling: u32) -> Result<f64, Refusal>
        ensures { said (λ sum. sum) result ≡ asks_to ceiling (book_of self.now) }
    {
        self.tested()?;
        let columns = split(&self.asks);
        Ok(side::ask_depth_to(&columns.prices, &columns.sizes, self.asks.count, ceiling))
    }
}
