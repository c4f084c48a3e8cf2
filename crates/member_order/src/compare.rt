// Two names, byte by byte.
ghost use Rattle.std.specs.Prelude.{◌≡◌, List, ◌∷◌, ℕ, get_or};
ghost use Rattle.json_text.specs.Work.{up_to_ff};
ghost use Rattle.member_order.specs.Names.{name_in, order_of};

use std::cmp::Ordering;

// The byte at a place, FF behind the last.
pub fn byte_in(names: &[u8], at: usize) -> u8
    ensures { result ≡ get_or names.now at 0xFF }
{
    names.get(at).copied().unwrap_or(0xFF)
}

// Two names by their first bytes, which are not the same. FF is the end of a name.
fn order_of(x: u8, y: u8) -> Ordering
    requires { x ≡ y → ⊥ }
    ensures { (s u : List ℕ) → result ≡ order_of (up_to_ff (x ∷ s)) (up_to_ff (y ∷ u)) }
{
    if x == 0xFF {
        return Ordering::Less;
    }
    if y == 0xFF {
        return Ordering::Greater;
    }
    x.cmp(&y)
}

// The names that begin at two places of a list and go up to an FF each.
pub fn compare(names: &[u8], p: usize, q: usize) -> Ordering
    ensures { result ≡ order_of (name_in names.now p) (name_in names.now q) }
{
    let mut i = p;
    let mut j = q;
    // Through two names at once, up to an FF: a `for` has no end to go to.
    loop {
        let x = byte_in(names, i);
        let y = byte_in(names, j);
        if x != y {
            return order_of(x, y);
        }
        if x == 0xFF {
            return Ordering::Equal;
        }
        i += 1;
        j += 1;
    }
}
