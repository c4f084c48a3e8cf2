// The key of a message: of its canonical bytes, which are written beside it and not kept.
#![tactic(auto)]

ghost use Rattle.std.specs.Prelude.{◌≡◌, ◌*◌, ◌≤◌, length};
ghost use Rattle.json_text.specs.Refusals.{longest};
ghost use Rattle.message_keys.specs.Keyed.{Answers};

use canonical::write_within;
use json_check::{Refusal, check};
use keys::key_of;
use rules::EventKey;

// The key of a message of up to N bytes. It has at most five canonical bytes for each of its own, ROOM in all; QUARTER is a quarter of N.
fn key_within<const N: usize, const QUARTER: usize, const ROOM: usize>(
    text: &[u8],
) -> Result<EventKey, Refusal>
    requires { (length text.now ≤ longest → length text.now ≤ N) × (N ≡ 4 * QUARTER) × (N ≤ longest) × (5 * N ≡ ROOM) }
    ensures { Answers text.now result }
{
    check(text)?;
    let mut out = [0u8; ROOM];
    let count = write_within::<N, QUARTER>(text, &mut out);
    Ok(key_of(&out[..count]))
}

// The key of a message of up to 4,096 bytes, or why it is refused.
pub fn key_of_short(text: &[u8]) -> Result<EventKey, Refusal>
    requires { length text.now ≤ 4096 }
    ensures { Answers text.now result }
{
    if text.len() <= 512 {
        return key_within::<512, 128, 2560>(text);
    }
    key_within::<4096, 1024, 20480>(text)
}

// The key of a message, or why it is refused.
pub fn key_of_json(text: &[u8]) -> Result<EventKey, Refusal>
    ensures { Answers text.now result }
{
    if text.len() <= 4096 {
        return key_of_short(text);
    }
    key_within::<32768, 8192, 163840>(text)
}
