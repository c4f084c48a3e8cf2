// The canonical bytes of a value that stands in the text. What lies from top on in places is free.
ghost use Rattle.std.specs.Prelude.{◌≡◌, true, false, ◌||◌, eqb};
ghost use Rattle.json_text.specs.Bytes.{is_digit};
ghost use Rattle.json_text.specs.Work.{byte_at};
ghost use Rattle.writing.specs.Writing.{WritesScalar, WroteScalar, Writable, Wrote, WritableMember, WroteMember};

use crate::Spot;
use crate::bytes::{put_header, put_string, put_text};
use crate::collect::collect;
use json_text::bytes::{byte, is_digit, skip_ws};
use json_text::numbers::number_end;
use member_order::sort::sort;

// A string, whose first mark stands at the place.
fn write_string(text: &[u8], at: usize, out: &mut [u8], pos: usize) -> Spot
    requires { WritesScalar text.now out.old at pos × (byte_at text.now at ≡ 0x22) }
    ensures { WroteScalar text.now out.old out.new at pos result }
{
    out[pos] = 3;
    put_string(text, at + 1, out, pos + 1)
}

fn write_number(text: &[u8], at: usize, out: &mut [u8], pos: usize) -> Spot
    requires { WritesScalar text.now out.old at pos × ((eqb (byte_at text.now at) 0x2D || is_digit (byte_at text.now at)) ≡ true) }
    ensures { WroteScalar text.now out.old out.new at pos result }
{
    let end = number_end(text, at).unwrap();
    out[pos] = 2;
    let last = put_text(text, at, end, out, pos + 1);
    out[last] = 0xFF;
    Spot {
        at: end,
        pos: last + 1,
    }
}

// null, true or false, by its first byte b.
fn write_literal(text: &[u8], at: usize, b: u32, out: &mut [u8], pos: usize) -> Spot
    requires { WritesScalar text.now out.old at pos × (b ≡ byte_at text.now at) × (b ≡ 0x22 → ⊥) × (b ≡ 0x5B → ⊥) × (b ≡ 0x7B → ⊥)
        × ((eqb b 0x2D || is_digit b) ≡ false) }
    ensures { WroteScalar text.now out.old out.new at pos result }
{
    if b == 0x6E {
        out[pos] = 0;
        return Spot {
            at: at + 4,
            pos: pos + 1,
        };
    }
    out[pos] = 1;
    if b == 0x74 {
        out[pos + 1] = 1;
        return Spot {
            at: at + 4,
            pos: pos + 2,
        };
    }
    out[pos + 1] = 0;
    Spot {
        at: at + 5,
        pos: pos + 2,
    }
}

// A string, a number or a literal.
fn write_scalar(text: &[u8], at: usize, out: &mut [u8], pos: usize) -> Spot
    requires { WritesScalar text.now out.old at pos × (byte_at text.now at ≡ 0x5B → ⊥) × (byte_at text.now at ≡ 0x7B → ⊥) }
    ensures { WroteScalar text.now out.old out.new at pos result }
{
    let b = byte(text, at);
    if b == 0x22 {
        return write_string(text, at, out, pos);
    }
    if b == 0x2D || is_digit(b) {
        return write_number(text, at, out, pos);
    }
    write_literal(text, at, b, out, pos)
}

// An array: its items behind the place of its header, then the header.
#[cycle(write_array_write_member_write_object_write_value)]
fn write_array(
    text: &[u8],
    at: usize,
    ends: &mut [u16],
    places: &mut [u64],
    merged: &mut [u64],
    names: &mut [u8],
    top: usize,
    out: &mut [u8],
    pos: usize,
) -> Spot
    requires { Writable text.now ends.old places.old merged.old names.old out.old at top pos × (byte_at text.now at ≡ 0x5B) }
    ensures { Wrote text.now ends.new places.old places.new
        out.old out.new at top pos result }
{
    let mut i = skip_ws(text, at + 1);
    let mut end = pos + 9;
    let mut count: usize = 0;
    if byte(text, i) == 0x5D {
        put_header(out, pos, 4, count);
        return Spot {
            at: i + 1,
            pos: end,
        };
    }
    // Up to the bracket that closes it: a `for` does not say it plainer.
    loop {
        let next = write_value(text, i, ends, places, merged, names, top, out, end);
        end = next.pos;
        count += 1;
        let behind = skip_ws(text, next.at);
        if byte(text, behind) != 0x2C {
            put_header(out, pos, 4, count);
            return Spot {
                at: behind + 1,
                pos: end,
            };
        }
        i = skip_ws(text, behind + 1);
    }
}

// The member whose name begins at the place.
#[cycle(write_array_write_member_write_object_write_value)]
fn write_member(
    text: &[u8],
    at: usize,
    ends: &mut [u16],
    places: &mut [u64],
    merged: &mut [u64],
    names: &mut [u8],
    top: usize,
    out: &mut [u8],
    pos: usize,
) -> usize
    requires { WritableMember text.now ends.old places.old merged.old names.old out.old at top pos }
    ensures { WroteMember text.now ends.new places.old places.new
        out.old out.new at top pos result }
{
    let name = put_string(text, at + 1, out, pos);
    let colon = skip_ws(text, name.at);
    let value = skip_ws(text, colon + 1);
    let next = write_value(text, value, ends, places, merged, names, top, out, name.pos);
    next.pos
}

// An object: its members in the order of their names, of each name the last.
#[cycle(write_array_write_member_write_object_write_value)]
fn write_object(
    text: &[u8],
    at: usize,
    ends: &mut [u16],
    places: &mut [u64],
    merged: &mut [u64],
    names: &mut [u8],
    top: usize,
    out: &mut [u8],
    pos: usize,
) -> Spot
    requires { Writable text.now ends.old places.old merged.old names.old out.old at top pos × (byte_at text.now at ≡ 0x7B) }
    ensures { Wrote text.now ends.new places.old places.new
        out.old out.new at top pos result }
{
    let all = collect(text, at, ends, places, names, top);
    let count = sort(names, places, merged, top, all.count);
    put_header(out, pos, 5, count);
    let mut end = pos + 9;
    for i in 0..count {
        let name = places[top + i] as usize;
        end = write_member(
            text,
            name,
            ends,
            places,
            merged,
            names,
            top + count,
            out,
            end,
        );
    }
    Spot {
        at: all.end,
        pos: end,
    }
}

#[cycle(write_array_write_member_write_object_write_value)]
pub fn write_value(
    text: &[u8],
    at: usize,
    ends: &mut [u16],
    places: &mut [u64],
    merged: &mut [u64],
    names: &mut [u8],
    top: usize,
    out: &mut [u8],
    pos: usize,
) -> Spot
    requires { Writable text.now ends.old places.old merged.old names.old out.old at top pos }
    ensures { Wrote text.now ends.new places.old places.new
        out.old out.new at top pos result }
{
    let b = byte(text, at);
    if b == 0x5B {
        return write_array(text, at, ends, places, merged, names, top, out, pos);
    }
    if b == 0x7B {
        return write_object(text, at, ends, places, merged, names, top, out, pos);
    }
    write_scalar(text, at, out, pos)
}
