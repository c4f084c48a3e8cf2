// The bytes that the chars of a string stand for.
ghost use Rattle.std.specs.Prelude.{◌≡◌, [], ◌∷◌, ◌+◌, ◌≤◌, ◌<◌, length, drop};
ghost use Rattle.json_text.specs.Bytes.{utf8};
ghost use Rattle.json_text.specs.Refusals.{longest};
ghost use Rattle.json_text.specs.Work.{byte_at, char_len};
ghost use Rattle.member_order.specs.Names.{escape_text, char_text, Decodes};

use json_text::bytes::byte;
use json_text::strings::{escape_of, hex_at, is_scalar};

// One to four bytes.
#[derive(Clone, Copy)]
pub struct Decoded {
    pub b0: u8,
    pub b1: u8,
    pub b2: u8,
    pub b3: u8,
    pub len: usize,
}

fn one(b: u32) -> Decoded
    requires { b < 256 }
    ensures { Decodes (b ∷ []) result }
{
    Decoded {
        b0: b as u8,
        b1: 0,
        b2: 0,
        b3: 0,
        len: 1,
    }
}

// The UTF-8 bytes of a code point.
fn utf8_of(n: u32) -> Decoded
    requires { n < 0x110000 }
    ensures { Decodes (utf8 n) result }
{
    if n < 0x80 {
        return one(n);
    }
    if n < 0x800 {
        return Decoded {
            b0: (0xC0 + n / 64) as u8,
            b1: (0x80 + n % 64) as u8,
            b2: 0,
            b3: 0,
            len: 2,
        };
    }
    if n < 0x10000 {
        return Decoded {
            b0: (0xE0 + n / 4096) as u8,
            b1: (0x80 + n / 64 % 64) as u8,
            b2: (0x80 + n % 64) as u8,
            b3: 0,
            len: 3,
        };
    }
    Decoded {
        b0: (0xF0 + n / 262144) as u8,
        b1: (0x80 + n / 4096 % 64) as u8,
        b2: (0x80 + n / 64 % 64) as u8,
        b3: (0x80 + n % 64) as u8,
        len: 4,
    }
}

// An escape, which stands at the place.
fn decode_escape(text: &[u8], at: usize) -> Decoded
    requires { (at ≤ longest) × (byte_at (drop at text.now) 0 ≡ 0x5C) × (0 < char_len (drop at text.now)) }
    ensures { Decodes (escape_text (drop at text.now)) result }
{
    if let Some(b) = escape_of(byte(text, at + 1)) {
        return one(b);
    }
    let high = hex_at(text, at + 2).unwrap();
    if is_scalar(high) {
        return utf8_of(high);
    }
    let low = hex_at(text, at + 8).unwrap();
    utf8_of(0x10000 + (high - 0xD800) * 0x400 + (low - 0xDC00))
}

// The byte i places behind a place, 0 from n on.
fn byte_of(text: &[u8], at: usize, i: usize, n: usize) -> u8
    requires { (at ≤ longest) × (i < 4) }
    ensures { i < n → at + i < length text.now → result ≡ byte_at text.now (at + i) }
{
    let place = at + i;
    if i < n && place < text.len() {
        text[place]
    } else {
        0
    }
}

// A char of n bytes, which stands at the place.
#[tactic(auto, using(crate::proofs::DecodeLaws::decode_rules))]
pub fn decode(text: &[u8], at: usize, n: usize) -> Decoded
    requires { (at ≤ longest) × (n ≡ char_len (drop at text.now)) × (0 < n) }
    ensures { Decodes (char_text (drop at text.now)) result }
{
    if byte(text, at) == 0x5C {
        return decode_escape(text, at);
    }
    let b0 = byte_of(text, at, 0, n);
    let b1 = byte_of(text, at, 1, n);
    let b2 = byte_of(text, at, 2, n);
    let b3 = byte_of(text, at, 3, n);
    Decoded {
        b0,
        b1,
        b2,
        b3,
        len: n,
    }
}
