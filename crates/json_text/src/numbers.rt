// Numbers: where one ends, and whether the rule has it.
ghost use Rattle.std.specs.Prelude.{◌≡◌, ◌&&◌, ◌+◌, ◌-◌, ◌≤◌, ◌<◌, length, take, drop};
ghost use Rattle.json_text.specs.Refusals.{allowed};
ghost use Rattle.json_text.specs.Work.{
  skip_digits,
  digits1_rest,
  skip_minus,
  skip_sign,
  int_rest,
  frac_rest,
  exp_rest,
  number_rest,
  Ends,
  decimal_of,
};

use crate::bytes::{byte, is_digit, within};

// The first place from at on that holds no digit.
fn digits_end(text: &[u8], at: usize) -> usize
    requires { at ≤ length text.now }
    ensures { (drop result text.now ≡ skip_digits (drop at text.now)) × (at ≤ result) × (result ≤ length text.now) }
{
    for i in at..text.len() {
        if !is_digit(byte(text, i)) {
            return i;
        }
    }
    text.len()
}

// The same, for one digit or more.
fn digits1_end(text: &[u8], at: usize) -> Option<usize>
    requires { at ≤ length text.now }
    ensures { Ends text.now (at + 1) (digits1_rest (drop at text.now)) result }
{
    if is_digit(byte(text, at)) {
        Some(digits_end(text, at + 1))
    } else {
        None
    }
}

fn after_minus(text: &[u8], at: usize) -> usize
    requires { at ≤ length text.now }
    ensures { (drop result text.now ≡ skip_minus (drop at text.now)) × (at ≤ result) × (result ≤ length text.now) }
{
    if byte(text, at) == 0x2D { at + 1 } else { at }
}

fn after_sign(text: &[u8], at: usize) -> usize
    requires { at ≤ length text.now }
    ensures { (drop result text.now ≡ skip_sign (drop at text.now)) × (at ≤ result) × (result ≤ length text.now) }
{
    let b = byte(text, at);
    if b == 0x2D || b == 0x2B {
        return at + 1;
    }
    at
}

fn int_end(text: &[u8], at: usize) -> Option<usize>
    requires { at ≤ length text.now }
    ensures { Ends text.now (at + 1) (int_rest (drop at text.now)) result }
{
    let b = byte(text, at);
    if b == 0x30 {
        return Some(at + 1);
    }
    if within(0x31, 0x39, b) {
        Some(digits_end(text, at + 1))
    } else {
        None
    }
}

fn frac_end(text: &[u8], at: usize) -> Option<usize>
    requires { at ≤ length text.now }
    ensures { Ends text.now at (frac_rest (drop at text.now)) result }
{
    if byte(text, at) == 0x2E {
        digits1_end(text, at + 1)
    } else {
        Some(at)
    }
}

fn exp_end(text: &[u8], at: usize) -> Option<usize>
    requires { at ≤ length text.now }
    ensures { Ends text.now at (exp_rest (drop at text.now)) result }
{
    let b = byte(text, at);
    if b == 0x65 || b == 0x45 {
        return digits1_end(text, after_sign(text, at + 1));
    }
    Some(at)
}

// The place behind the number at a place, read as far as it goes.
pub fn number_end(text: &[u8], at: usize) -> Option<usize>
    requires { at ≤ length text.now }
    ensures { Ends text.now (at + 1) (number_rest (drop at text.now)) result }
{
    let whole = int_end(text, after_minus(text, at))?;
    let point = frac_end(text, whole)?;
    exp_end(text, point)
}

// The number of 64 bits that the bytes from one place up to another write; none where a byte is no digit, or the number is greater.
fn decimal_of(text: &[u8], from: usize, to: usize) -> Option<u64>
    requires { (from ≤ to) × (to ≤ length text.now) }
    ensures { result ≡ decimal_of (take (to - from) (drop from text.now)) }
{
    let mut n: u64 = 0;
    for i in from..to {
        let b = byte(text, i);
        if !is_digit(b) {
            return None;
        }
        n = n.checked_mul(10)?.checked_add(u64::from(b - 0x30))?;
    }
    Some(n)
}

// Whether the number between two places is whole and within the bounds.
#[tactic(auto, using(crate::proofs::AllowedLaws::minus_rules))]
pub fn number_allowed(text: &[u8], from: usize, to: usize) -> bool
    requires { (from < to) × (to ≤ length text.now) }
    ensures { result ≡ allowed (take (to - from) (drop from text.now)) }
{
    if text[from] == 0x2D {
        match decimal_of(text, from + 1, to) {
            Some(n) => 1 <= n && n <= 0x8000_0000_0000_0000,
            None => false,
        }
    } else {
        decimal_of(text, from, to).is_some()
    }
}
