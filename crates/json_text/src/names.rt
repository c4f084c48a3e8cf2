// The three literals, and a member's name with its colon.
ghost use Rattle.std.specs.Prelude.{◌≡◌, ◌+◌, ◌≤◌, length, drop};
ghost use Rattle.json_text.specs.Refusals.{longest};
ghost use Rattle.json_text.specs.Work.{word_rest, literal_rest, colon_rest, name_rest, Ends};

use crate::bytes::{byte, skip_ws};
use crate::strings::string_end;

// The place behind a word that is to stand at a place.
fn word_end(text: &[u8], at: usize, word: &[u8]) -> Option<usize>
    requires { at ≤ length text.now }
    ensures { Ends text.now at (word_rest word.now (drop at text.now)) result }
{
    for i in 0..word.len() {
        if byte(text, at + i) != byte(word, i) {
            return None;
        }
    }
    Some(at + word.len())
}

// The place behind null, true or false.
pub fn literal_end(text: &[u8], at: usize) -> Option<usize>
    requires { at ≤ length text.now }
    ensures { Ends text.now (at + 1) (literal_rest (drop at text.now)) result }
{
    let b = byte(text, at);
    if b == 0x6E {
        return word_end(text, at + 1, b"ull");
    }
    if b == 0x74 {
        return word_end(text, at + 1, b"rue");
    }
    if b == 0x66 {
        return word_end(text, at + 1, b"alse");
    }
    None
}

// The place behind the colon at a place and the ws that follows it.
fn colon_end(text: &[u8], at: usize) -> Option<usize>
    requires { at ≤ length text.now }
    ensures { Ends text.now (at + 1) (colon_rest (drop at text.now)) result }
{
    if byte(text, at) == 0x3A {
        Some(skip_ws(text, at + 1))
    } else {
        None
    }
}

// The place where the value of the member at a place begins.
pub fn name_end(text: &[u8], at: usize) -> Option<usize>
    requires { (at ≤ length text.now) × (length text.now ≤ longest) }
    ensures { Ends text.now (at + 1) (name_rest (drop at text.now)) result }
{
    if byte(text, at) != 0x22 {
        return None;
    }
    let end = string_end(text, at + 1)?;
    colon_end(text, skip_ws(text, end))
}
