// The calls on JSON messages for a host in C or Rust. The slices and pointers of one call may not overlap. A call answers 1, or 0 where it
// is refused, with the refusal's number behind its first pointer to a number.
#![tactic(auto)]

ghost use Rattle.canonical.specs.Calls.{Answered};
ghost use Rattle.std.specs.Prelude.{◌≡◌, ℕ, Result};
ghost use Rattle.canonical.specs.declared.NotWritten.{NotWritten};
ghost use Rattle.json_check.specs.declared.Refusal.{Refusal};
ghost use Rattle.json_check.specs.Numbers.{number_of};
ghost use Rattle.rules.specs.Quantities.{Key};
ghost use Rattle.json_text.specs.Refusals.{Judged};
ghost use Rattle.json_exports.specs.Told.{Tells, TellsKey};
ghost use Rattle.message_keys.specs.Keyed.{Answers};

use json_check::Refusal;
use rules::EventKey;

// What a check of a message answers, as a number.
fn number_of(checked: Result<(), Refusal>) -> u64
    ensures { result ≡ number_of checked }
{
    match checked {
        Ok(()) => 0,
        Err(refusal) => refusal.number(),
    }
}

// 0 for a message that is accepted, else 15, 16 or 17.
#[unsafe(no_mangle)]
pub extern "C" fn json_refusal(text: &[u8]) -> u64
    ensures { Judged text.now result }
{
    number_of(json_check::check(text))
}

// The canonical bytes of a message, at the front of out; count is how many they are.
#[unsafe(no_mangle)]
pub extern "C" fn json_canonical(text: &[u8], out: &mut [u8], count: &mut u64) -> u64
    ensures { (a : Result ℕ NotWritten) × Answered text.now out.old out.new a × Tells a result count.new }
{
    match canonical::canonical(text, out) {
        Ok(n) => {
            *count = n as u64;
            1
        }
        Err(refusal) => {
            *count = refusal.number();
            0
        }
    }
}

// What is told of a key.
fn tell(keyed: Result<EventKey, Refusal>, key0: &mut u64, key1: &mut u64) -> u64
    ensures { TellsKey keyed result key0.new key1.new }
{
    match keyed {
        Ok(key) => {
            *key0 = key.0;
            *key1 = key.1;
            1
        }
        Err(refusal) => {
            *key0 = refusal.number();
            *key1 = 0;
            0
        }
    }
}

// The key of a message of any length. Exported, so that what it needs of the stack is not taken by json_key too.
#[unsafe(no_mangle)]
pub extern "C" fn json_long_key(text: &[u8], key0: &mut u64, key1: &mut u64) -> u64
    ensures { (a : Result Key Refusal) × Answers text.now a × TellsKey a result key0.new key1.new }
{
    tell(message_keys::key_of_json(text), key0, key1)
}

// The key of a message.
#[unsafe(no_mangle)]
pub extern "C" fn json_key(text: &[u8], key0: &mut u64, key1: &mut u64) -> u64
    ensures { (a : Result Key Refusal) × Answers text.now a × TellsKey a result key0.new key1.new }
{
    if 4096 < text.len() {
        return json_long_key(text, key0, key1);
    }
    tell(message_keys::key_of_short(text), key0, key1)
}
