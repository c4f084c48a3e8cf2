// The head lent and changed in place.
ghost use Rattle.std.specs.Prelude.{◌≡◌, List, ℕ, ◌+◌, ◌<◌, ◌^◌};
ghost use Rattle.rules.specs.Log.{push, clear};
ghost use Rattle.event_log.specs.Log.{log_of, Fit};

use event_log::Head;
use rules::EventKey;

// Adds an entry behind the last and sets last-applied.
pub fn push(area: &mut [u64], g: usize, head: &mut Head, key: EventKey, t: u64)
    requires { (Fit g area.old head.old) × (head.old.count < g) }
    ensures head_after { log_of g area.new head.new ≡ push key t (log_of g area.old head.old) }
    ensures fit { (Fit g area.new head.new)
        × ((head.new.base ≡ head.old.base) × (head.new.count ≡ head.old.count + 1)) }
{
    event_log::put(area, g, head.front, head.count, key, t);
    head.count += 1;
    head.last = Some(t);
}

// Forgets the entries; the numbers go on, and the front stays where it is.
pub fn clear(head: &mut Head)
    requires { head.old.base + head.old.count < 2 ^ 64 }
    ensures by_index { (g : ℕ) (w : List ℕ) → log_of g w head.new ≡ clear (log_of g w head.old) }
    ensures base_after { (head.new.base ≡ head.old.base + head.old.count)
        × ((head.new.count ≡ 0) × (head.new.front ≡ head.old.front)) }
{
    head.base += head.count as u64;
    head.count = 0;
}
