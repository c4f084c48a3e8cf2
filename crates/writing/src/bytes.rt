// Bytes into the output.
ghost use Rattle.std.specs.Prelude.{◌≡◌, false, ◌∷◌, ◌+◌, ◌-◌, ◌≤◌, ◌<◌, length, take, drop};
ghost use Rattle.json_text.specs.Bytes.{plain};
ghost use Rattle.json_text.specs.Canonical.{little_endian};
ghost use Rattle.json_text.specs.Refusals.{longest};
ghost use Rattle.json_text.specs.Work.{byte_at, char_len};
ghost use Rattle.member_order.specs.Names.{char_text, chars_text, text_of};
ghost use Rattle.writing.specs.Writing.{written, PutChar, PutString};

use crate::Spot;
use json_text::bytes::byte;
use json_text::strings::{plain, special_len};
use member_order::names::{Decoded, decode};

// The bytes from one place of the text up to another, from pos on.
pub fn put_text(text: &[u8], from: usize, to: usize, out: &mut [u8], pos: usize) -> usize
    requires { (from ≤ to) × (to ≤ length text.now) × (pos + (to - from) ≤ length out.old) }
    ensures { (out.new ≡ written pos (take (to - from) (drop from text.now)) out.old)
        × (result ≡ pos + (to - from)) }
{
    let end = pos + (to - from);
    out[pos..end].copy_from_slice(&text[from..to]);
    end
}

// A tag and a length in eight bytes, the lowest first.
pub fn put_header(out: &mut [u8], pos: usize, tag: u8, count: usize)
    requires { (pos + 9 ≤ length out.old) × (count ≤ longest) }
    ensures { out.new ≡ written pos (tag ∷ little_endian 8 count) out.old }
{
    out[pos] = tag;
    out[pos + 1] = (count % 256) as u8;
    out[pos + 2] = (count / 256) as u8;
    for i in 3..9usize {
        out[pos + i] = 0;
    }
}

// The bytes of a char.
fn put_decoded(out: &mut [u8], pos: usize, d: Decoded) -> usize
    requires { (d.len ≤ 4) × (pos + d.len ≤ length out.old) }
    ensures { (out.new ≡ written pos (text_of d) out.old) × (result ≡ pos + d.len) }
{
    let len = d.len;
    if len == 0 {
        return pos;
    }
    out[pos] = d.b0;
    if len == 1 {
        return pos + 1;
    }
    out[pos + 1] = d.b1;
    if len == 2 {
        return pos + 2;
    }
    out[pos + 2] = d.b2;
    if len == 3 {
        return pos + 3;
    }
    out[pos + 3] = d.b3;
    pos + 4
}

// The bytes that the char of n bytes at a place stands for.
fn put_char(text: &[u8], at: usize, n: usize, out: &mut [u8], pos: usize) -> usize
    requires { (at < length text.now) × (length text.now ≤ longest) × (n ≡ char_len (drop at text.now)) × (0 < n)
        × (pos + length (char_text (drop at text.now)) ≤ length out.old) }
    ensures { (out.new ≡ written pos (char_text (drop at text.now)) out.old)
        × (result ≡ pos + length (char_text (drop at text.now))) }
{
    let d = decode(text, at, n);
    put_decoded(out, pos, d)
}

// The char at a place that is no plain byte: its bytes, and the places behind both. Where no char stands, nothing.
fn put_special(text: &[u8], at: usize, out: &mut [u8], pos: usize) -> Spot
    requires { (at < length text.now) × (length text.now ≤ longest) × (plain (byte_at text.now at) ≡ false)
        × (0 < char_len (drop at text.now) → pos + length (char_text (drop at text.now)) ≤ length out.old) }
    ensures { PutChar text.now at out.old out.new pos result }
{
    let Some(n) = special_len(text, at) else {
        return Spot { at, pos };
    };
    let end = put_char(text, at, n, out, pos);
    Spot {
        at: at + n,
        pos: end,
    }
}

// The bytes that a string stands for, from pos on, and behind them FF. The string's first mark stands in front of at; the place behind
// its closing mark comes back.
pub fn put_string(text: &[u8], at: usize, out: &mut [u8], pos: usize) -> Spot
    requires { (at ≤ length text.now) × (length text.now ≤ longest)
        × (pos + length (chars_text (drop at text.now)) + 1 ≤ length out.old) }
    ensures { PutString text.now at out.old out.new pos result }
{
    let mut i = at;
    let mut end = pos;
    // By the lengths of the chars: a `for` does not say it plainer.
    while i < text.len() {
        let b = text[i];
        if b == 0x22 {
            out[end] = 0xFF;
            return Spot {
                at: i + 1,
                pos: end + 1,
            };
        }
        if plain(byte(text, i)) {
            out[end] = b;
            end += 1;
            i += 1;
        } else {
            let next = put_special(text, i, out, end);
            if next.at == i {
                out[end] = 0xFF;
                return Spot {
                    at: i,
                    pos: end + 1,
                };
            }
            end = next.pos;
            i = next.at;
        }
    }
    out[end] = 0xFF;
    Spot {
        at: i,
        pos: end + 1,
    }
}
