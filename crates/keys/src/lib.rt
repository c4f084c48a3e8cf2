// The key of a message's bytes.
#![tactic(auto)]

ghost use Rattle.std.specs.Prelude.{◌≡◌};
ghost use Rattle.keys.specs.Keys.{key_of};

use rules::EventKey;
use sip::State;

pub mod load;
mod sip;

// The word that stands before a message in its second hash.
const SECOND: u64 = 0x9E3779B97F4A7C15;

// The key of a message's bytes, of any length: both hashes in one pass.
pub fn key_of(bytes: &[u8]) -> EventKey
    ensures { result ≡ key_of bytes.now }
{
    let len = bytes.len() as u64;
    let mut first = State::new();
    let mut second = State::new().compress(SECOND);
    let words = bytes.len() / 8;
    for i in 0..words {
        let m = load::load64(bytes, 8 * i);
        first = first.compress(m);
        second = second.compress(m);
    }
    let rest = load::load_rest(bytes, 8 * words);
    let k0 = first.finish(rest, len);
    let k1 = second.finish(rest, len + 8);
    EventKey(k0, k1)
}
