// The first bytes of names as numbers: where two of them differ, so do the names, and the less comes first.
ghost use Rattle.std.specs.Prelude.{◌≡◌, ◌+◌, ◌≤◌, ◌<◌, length};
ghost use Rattle.member_order.specs.Codes.{digit, CodeOf, WordOf, PlaceOf, Made};
ghost use Rattle.member_order.specs.Names.{name_in};
ghost use Rattle.member_order.specs.Order.{run, Short};

use crate::compare::byte_in;

// The byte at a place and one, 0 at the end of a name.
fn digit(names: &[u8], at: usize) -> u64
    ensures { (result ≡ digit (name_in names.now at)) × (result < 256) }
{
    let b = byte_in(names, at);
    if b == 0xFF {
        return 0;
    }
    u64::from(b) + 1
}

// The digits of a name's first six bytes; behind its end they are 0.
fn code(names: &[u8], at: usize) -> u64
    requires { at < 65536 }
    ensures { CodeOf (name_in names.now at) result }
{
    let mut code: u64 = 0;
    let mut end = at;
    for i in 0..6usize {
        let d = digit(names, end);
        code = code * 256 + d;
        if d != 0 {
            end += 1;
        }
    }
    code
}

// A name's code above its place.
fn word(names: &[u8], place: u64) -> u64
    requires { place < 65536 }
    ensures { WordOf (name_in names.now) place result }
{
    code(names, place as usize) * 65536 + place
}

// Makes words of the n places from low on.
pub fn load(names: &[u8], places: &mut [u64], low: usize, n: usize)
    requires { (low + n ≤ length places.old) × Short (run places.old low n) }
    ensures { Made (WordOf (name_in names.now)) places.old low n places.new }
{
    for i in 0..n {
        places[low + i] = word(names, places[low + i]);
    }
}

// Makes places of the n words from low on.
pub fn store(words: &mut [u64], low: usize, n: usize)
    requires { low + n ≤ length words.old }
    ensures { Made PlaceOf words.old low n words.new }
{
    for i in 0..n {
        words[low + i] %= 65536;
    }
}
