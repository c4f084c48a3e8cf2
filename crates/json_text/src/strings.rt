// Strings: each char by how many bytes it takes, and the closing mark.
ghost use Rattle.std.specs.Prelude.{Some, ◌≡◌, ◌&&◌, List, ℕ, ◌+◌, ◌≤◌, length, drop};
ghost use Rattle.json_text.specs.Bytes.{plain, tail, first_of_three, first_of_four, escape_of, hex_of, is_scalar, is_high, is_low};
ghost use Rattle.json_text.specs.Refusals.{longest};
ghost use Rattle.json_text.specs.Work.{hex_at, pair_len, escape_len, utf8_len, special_len, chars_rest, to_mark, Ends, Long, Below};

use crate::bytes::{byte, within};

// A byte that stands for itself in a string. By two branches: as one `&&` of three tests it took a tenth longer a message.
#[tactic(auto, using(std::proofs::lemmas::Bool::Decides::nat_tests), unfolding(crate::specs::Bytes::plain))]
pub fn plain(b: u32) -> bool
    ensures { result ≡ plain b }
{
    if b == 0x22 || b == 0x5C {
        return false;
    }
    within(0x20, 0x7F, b)
}

fn tail(b: u32) -> bool
    ensures { result ≡ tail b }
{
    within(0x80, 0xBF, b)
}

// Whether a and b may begin a char of three bytes: no overlong form, no surrogate.
#[tactic(auto, using(std::proofs::lemmas::Bool::Decides::nat_tests), unfolding(crate::specs::Bytes::first_of_three))]
fn first_of_three(a: u32, b: u32) -> bool
    ensures { result ≡ first_of_three a b }
{
    match a {
        0xE0 => within(0xA0, 0xBF, b),
        0xED => within(0x80, 0x9F, b),
        _ => within(0xE1, 0xEF, a) && tail(b),
    }
}

// Whether a and b may begin a char of four bytes: no overlong form, nothing beyond 10FFFF.
#[tactic(auto, using(std::proofs::lemmas::Bool::Decides::nat_tests), unfolding(crate::specs::Bytes::first_of_four))]
fn first_of_four(a: u32, b: u32) -> bool
    ensures { result ≡ first_of_four a b }
{
    match a {
        0xF0 => within(0x90, 0xBF, b),
        0xF4 => within(0x80, 0x8F, b),
        _ => within(0xF1, 0xF3, a) && tail(b),
    }
}

// What the byte behind a backslash stands for.
#[tactic(auto, using(std::proofs::lemmas::Bool::Decides::nat_tests), unfolding(crate::specs::Bytes::escape_of))]
pub fn escape_of(b: u32) -> Option<u32>
    ensures { Below 256 (escape_of b) result }
{
    match b {
        0x22 | 0x5C | 0x2F => Some(b),
        0x62 => Some(0x08),
        0x66 => Some(0x0C),
        0x6E => Some(0x0A),
        0x72 => Some(0x0D),
        0x74 => Some(0x09),
        _ => None,
    }
}

#[tactic(auto, using(std::proofs::lemmas::Bool::Decides::nat_tests), unfolding(crate::specs::Bytes::hex_of, crate::specs::Bytes::within))]
fn hex_of(b: u32) -> Option<u32>
    ensures { Below 16 (hex_of b) result }
{
    if within(0x30, 0x39, b) {
        return Some(b - 0x30);
    }
    if within(0x41, 0x46, b) {
        return Some(b - 0x37);
    }
    if within(0x61, 0x66, b) {
        return Some(b - 0x57);
    }
    None
}

// The number that four hexadecimal digits write.
#[tactic(auto, using(crate::proofs::Lengths::length_rules), unfolding(crate::specs::Bytes::hex_four))]
pub fn hex_at(text: &[u8], at: usize) -> Option<u32>
    requires { at ≤ longest + 12 }
    ensures { Below 65536 (hex_at text.now at) result }
{
    let a = hex_of(byte(text, at))?;
    let b = hex_of(byte(text, at + 1))?;
    let c = hex_of(byte(text, at + 2))?;
    let d = hex_of(byte(text, at + 3))?;
    Some(((a * 16 + b) * 16 + c) * 16 + d)
}

#[tactic(auto, unfolding(crate::specs::Bytes::is_scalar))]
pub fn is_scalar(n: u32) -> bool
    ensures { result ≡ is_scalar n }
{
    n < 0xD800 || within(0xE000, 0xFFFF, n)
}

fn is_high(n: u32) -> bool
    ensures { result ≡ is_high n }
{
    within(0xD800, 0xDBFF, n)
}

fn is_low(n: u32) -> bool
    ensures { result ≡ is_low n }
{
    within(0xDC00, 0xDFFF, n)
}

// The length of the surrogate pair at a place.
#[tactic(auto, using(crate::proofs::Lengths::length_rules), unfolding(crate::specs::Bytes::is_high, crate::specs::Bytes::is_low, crate::specs::Bytes::within))]
fn pair_len(text: &[u8], at: usize) -> Option<usize>
    requires { at ≤ longest }
    ensures { Long (pair_len (drop at text.now)) result }
{
    let high = hex_at(text, at + 2)?;
    if !is_high(high) || byte(text, at + 6) != 0x5C || byte(text, at + 7) != 0x75 {
        return None;
    }
    let low = hex_at(text, at + 8)?;
    if is_low(low) { Some(12) } else { None }
}

// The length of the escape at a place.
#[tactic(auto, using(crate::proofs::Lengths::length_rules))]
fn escape_len(text: &[u8], at: usize) -> Option<usize>
    requires { at ≤ longest }
    ensures { Long (escape_len (drop at text.now)) result }
{
    let b = byte(text, at + 1);
    if escape_of(b).is_some() {
        return Some(2);
    }
    if b != 0x75 {
        return None;
    }
    let n = hex_at(text, at + 2)?;
    if is_scalar(n) {
        Some(6)
    } else {
        pair_len(text, at)
    }
}

// The length of the UTF-8 char of more than one byte at a place.
#[tactic(auto, using(crate::proofs::Lengths::length_rules))]
fn utf8_len(text: &[u8], at: usize) -> Option<usize>
    requires { at ≤ longest }
    ensures { Long (utf8_len (drop at text.now)) result }
{
    let a = byte(text, at);
    let b = byte(text, at + 1);
    if within(0xC2, 0xDF, a) {
        return if tail(b) { Some(2) } else { None };
    }
    if !tail(byte(text, at + 2)) {
        return None;
    }
    if first_of_three(a, b) {
        return Some(3);
    }
    if first_of_four(a, b) && tail(byte(text, at + 3)) {
        Some(4)
    } else {
        None
    }
}

// The length of the char at a place that is no plain byte; none where there is none.
pub fn special_len(text: &[u8], at: usize) -> Option<usize>
    requires { at ≤ longest }
    ensures { Long (special_len (drop at text.now)) result }
{
    if byte(text, at) == 0x5C {
        escape_len(text, at)
    } else {
        utf8_len(text, at)
    }
}

// The first place from at on that holds a mark or a backslash.
fn next_mark(text: &[u8], at: usize) -> usize
    requires { at ≤ length text.now }
    ensures { (drop result text.now ≡ to_mark (drop at text.now)) × (at ≤ result) × (result ≤ length text.now) }
{
    for i in at..text.len() {
        if text[i] == 0x22 || text[i] == 0x5C {
            return i;
        }
    }
    text.len()
}

// The place behind the closing mark of the string whose first mark stands in front of at.
pub fn string_end(text: &[u8], at: usize) -> Option<usize>
    requires { (at ≤ length text.now) × (length text.now ≤ longest) }
    ensures { Ends text.now (at + 1) (chars_rest (drop at text.now)) result }
{
    let mut i = at;
    // By the lengths of the chars: a `for` does not say it plainer.
    while i < text.len() {
        if text[i] == 0x22 {
            return Some(i + 1);
        }
        if plain(byte(text, i)) {
            i += 1;
        } else {
            i += special_len(text, i)?;
        }
    }
    None
}

// The same of a string that is known to be one: only its closing mark is looked for, and what stands behind a backslash is passed over.
pub fn skip_string(text: &[u8], at: usize) -> usize
    requires { at ≤ length text.now }
    ensures { (at ≤ result) × (result ≤ length text.now)
        × ((s : List ℕ) → chars_rest (drop at text.now) ≡ Some s → drop result text.now ≡ s) }
{
    let mut i = at;
    // From mark to mark: a `for` does not say it plainer.
    while i < text.len() {
        i = next_mark(text, i);
        if i == text.len() {
            return i;
        }
        if text[i] == 0x22 {
            return i + 1;
        }
        i += 1;
        if i < text.len() {
            i += 1;
        }
    }
    i
}
