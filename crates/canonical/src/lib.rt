// The canonical bytes of a message.
#![tactic(auto)]

ghost use Rattle.std.specs.Prelude.{◌≡◌, ℕ, ◌*◌, ◌≤◌, length, get_or};
ghost use Rattle.json_text.specs.Refusals.{longest};
ghost use Rattle.canonical.specs.Calls.{Message, WroteMessage, Answered, number};

use json_check::{Refusal, check};
use json_text::bytes::skip_ws;
use std::error::Error;
use std::fmt;
use writing::write::write_value;

// Why nothing is written: the output is too short, or the text is refused.
#[derive(Clone, Copy, Debug, PartialEq, Eq)]
pub enum NotWritten {
    ShortOutput,
    Text(Refusal),
}

impl From<Refusal> for NotWritten {
    ghost use Rattle.canonical.specs.declared.NotWritten.TheVariants.{Text};

    ghost from_gives = { λ refusal e. e ≡ Text refusal };

    fn from(refusal: Refusal) -> NotWritten {
        NotWritten::Text(refusal)
    }
}

impl NotWritten {
    pub fn number(self) -> u64
        ensures { result ≡ number self }
    {
        match self {
            NotWritten::ShortOutput => 3,
            NotWritten::Text(refusal) => refusal.number(),
        }
    }
}

impl fmt::Display for NotWritten {
    fn fmt<W: fmt::Write>(&self, f: &mut fmt::Formatter<W>) -> fmt::Result {
        match self {
            NotWritten::ShortOutput => f.write_str("the output is too short"),
            NotWritten::Text(refusal) => write!(f, "{refusal}"),
        }
    }
}

impl Error for NotWritten {}

// Writes the canonical bytes of a message that is to be accepted; the lists of the work are lent.
fn write_message(
    text: &[u8],
    ends: &mut [u16],
    places: &mut [u64],
    merged: &mut [u64],
    names: &mut [u8],
    out: &mut [u8],
) -> usize
    requires { Message text.now × (length text.now ≤ length ends.old) × (length text.now ≤ 4 * length places.old)
        × (length text.now ≤ 4 * length merged.old) × (length text.now ≤ length names.old) × (5 * length text.now ≤ length out.old)
        × ((p : ℕ) → get_or ends.old p 0 ≡ 0) }
    ensures { WroteMessage text.now out.old out.new result }
{
    let at = skip_ws(text, 0);
    let last = write_value(text, at, ends, places, merged, names, 0, out, 0);
    last.pos
}

// The canonical bytes of a message of up to N bytes that is to be accepted, at the front of the output; how many they are. QUARTER is a
// quarter of N: a member takes four bytes of the text or more.
pub fn write_within<const N: usize, const QUARTER: usize>(text: &[u8], out: &mut [u8]) -> usize
    requires { Message text.now × (length text.now ≤ N) × (N ≡ 4 * QUARTER) × (N ≤ longest) × (5 * length text.now ≤ length out.old) }
    ensures { WroteMessage text.now out.old out.new result }
{
    let mut ends = [0u16; N];
    let mut places = [0u64; QUARTER];
    let mut merged = [0u64; QUARTER];
    let mut names = [0u8; N];
    write_message(text, &mut ends, &mut places, &mut merged, &mut names, out)
}

// The same, with lists of the work that suit its length.
fn write_accepted(text: &[u8], out: &mut [u8]) -> usize
    requires { Message text.now × (5 * length text.now ≤ length out.old) }
    ensures { WroteMessage text.now out.old out.new result }
{
    if text.len() <= 512 {
        return write_within::<512, 128>(text, out);
    }
    if text.len() <= 4096 {
        return write_within::<4096, 1024>(text, out);
    }
    write_within::<32768, 8192>(text, out)
}

// The canonical bytes of a message, at the front of the output; how many they are. A refusal changes nothing.
#[tactic(auto, using(crate::proofs::MessageLaws::short_output))]
pub fn canonical(text: &[u8], out: &mut [u8]) -> Result<usize, NotWritten>
    ensures { Answered text.now out.old out.new result }
{
    if out.len() < 163840 {
        return Err(NotWritten::ShortOutput);
    }
    check(text)?;
    Ok(write_accepted(text, out))
}
