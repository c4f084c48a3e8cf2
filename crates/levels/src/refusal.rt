// Why a call on a depth is refused.
ghost use Rattle.std.specs.Prelude.{◌≡◌};
ghost use Rattle.levels.specs.Work.{number_of};

use std::error::Error;
use std::fmt;

#[derive(Clone, Copy, Debug, PartialEq, Eq)]
pub enum Refusal {
    // The depth is out of order, has over 512 levels a side, or a level that may not stand.
    Unsound,
    // The price to set is outside 1 to 999,999.
    Price,
    // The size is negative or not finite.
    Size,
    // A new level on a side of 512.
    Full,
}

impl Refusal {
    // The number that request 2 gives it.
    pub fn number(self) -> u64
        ensures { result ≡ number_of self }
    {
        match self {
            Refusal::Unsound => 1,
            Refusal::Price => 12,
            Refusal::Size => 13,
            Refusal::Full => 14,
        }
    }
}

impl fmt::Display for Refusal {
    fn fmt<W: fmt::Write>(&self, f: &mut fmt::Formatter<W>) -> fmt::Result {
        match self {
            Refusal::Unsound => write!(f, "the depth is not sound"),
            Refusal::Price => write!(f, "the price is outside 1 to 999,999 millionths"),
            Refusal::Size => write!(f, "the size is negative or not finite"),
            Refusal::Full => write!(f, "a new level on a side of 512"),
        }
    }
}

impl Error for Refusal {}
