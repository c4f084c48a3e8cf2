// The members of an object.
ghost use Rattle.std.specs.Prelude.{◌≡◌, [], ◌∷◌, ◌++◌, ◌+◌, ◌-◌, ◌*◌, ◌≤◌, length};
ghost use Rattle.json_text.specs.Work.{byte_at};
ghost use Rattle.member_order.specs.Names.{name_at};
ghost use Rattle.writing.specs.Places.{Ends, MemberSpans};
ghost use Rattle.writing.specs.Writing.{written, Skippable, SkippableMember, Gathered};

use crate::bytes::put_string;
use crate::skip::skip_value;
use json_text::bytes::{byte, skip_ws};

// How many members an object has, repeated names too, and where it ends.
#[derive(Clone, Copy)]
pub struct Collected {
    pub count: usize,
    pub end: usize,
}

// Writes the name of the member at a place into names, at that place, and behind it FF; where the member ends.
fn note_member(text: &[u8], at: usize, ends: &mut [u16], names: &mut [u8]) -> usize
    requires { SkippableMember text.now ends.old at × (length text.now ≤ length names.old) }
    ensures { MemberSpans text.now at result × Ends text.now ends.new
        × (names.new ≡ written at (name_at text.now at ++ 0xFF ∷ []) names.old) }
{
    let name = put_string(text, at + 1, names, at);
    let colon = skip_ws(text, name.at);
    let value = skip_ws(text, colon + 1);
    skip_value(text, value, ends)
}

// Puts down the places of an object's names, from top on, and each name at its place in names.
pub fn collect(
    text: &[u8],
    at: usize,
    ends: &mut [u16],
    places: &mut [u64],
    names: &mut [u8],
    top: usize,
) -> Collected
    requires { ((s : Skippable text.now ends.old at) × (4 * top + (s.end - at) ≤ 4 * length places.old)) × (byte_at text.now at ≡ 0x7B)
        × (length text.now ≤ length names.old) }
    ensures { Gathered text.now ends.new places.old places.new names.new at top result }
{
    let mut i = skip_ws(text, at + 1);
    let mut count: usize = 0;
    if byte(text, i) == 0x7D {
        return Collected { count, end: i + 1 };
    }
    // Up to the bracket that closes it: a `for` does not say it plainer.
    loop {
        places[top + count] = i as u64;
        count += 1;
        let end = note_member(text, i, ends, names);
        let behind = skip_ws(text, end);
        if byte(text, behind) != 0x2C {
            return Collected {
                count,
                end: behind + 1,
            };
        }
        i = skip_ws(text, behind + 1);
    }
}
