// Whether a depth is sound.
ghost use Rattle.std.specs.Prelude.{◌≡◌, true, false, OnOk, IfErr};
ghost use Rattle.levels.specs.Depth.{side_sound, sound};
ghost use Rattle.depth.specs.Value.{side_by_value, book_of};

use crate::columns::split;
use crate::{Depth, Side};
use levels::{Refusal, side};

impl Side {
    fn sound(&self, bid: bool) -> bool
        ensures { result ≡ side_sound bid (side_by_value self.now) }
    {
        if self.count > 512 {
            return false;
        }
        let columns = split(self);
        side::sound(&columns.prices, &columns.sizes, self.count, bid)
    }
}

impl Depth {
    pub fn sound(&self) -> bool
        ensures { result ≡ sound (book_of self.now) }
    {
        self.bids.sound(true) && self.asks.sound(false)
    }

    // What every call asks first.
    pub(crate) fn tested(&self) -> Result<(), Refusal>
        ensures done { OnOk result (sound (book_of self.now) ≡ true) }
        ensures refused { IfErr result (λ e. (e ≡ Refusal.Unsound) × (sound (book_of self.now) ≡ false)) }
    {
        if self.sound() {
            Ok(())
        } else {
            Err(Refusal::Unsound)
        }
    }
}
