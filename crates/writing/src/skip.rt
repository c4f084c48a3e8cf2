// Where a value ends. The text is known to be one, so that little is tested. The end is kept in ends at the value's place, 0 where it is not
// known yet: so no value is read through twice.
ghost use Rattle.std.specs.Prelude.{ℕ, ◌≤◌, length, ◌≡◌};
ghost use Rattle.json_text.specs.Refusals.{longest};
ghost use Rattle.json_text.specs.Work.{byte_at};
ghost use Rattle.writing.specs.Places.{Spans, Ends, MemberSpans};
ghost use Rattle.writing.specs.Writing.{Skippable, SkippableMember};

use json_text::bytes::{byte, is_digit, skip_ws};
use json_text::names::literal_end;
use json_text::numbers::number_end;
use json_text::strings::skip_string;

// The end of a string, a number or a literal.
fn scalar_end(text: &[u8], at: usize) -> usize
    requires { ((e : ℕ) × Spans text.now at e) × (length text.now ≤ longest)
        × (byte_at text.now at ≡ 0x5B → ⊥) × (byte_at text.now at ≡ 0x7B → ⊥) }
    ensures { Spans text.now at result }
{
    let b = byte(text, at);
    if b == 0x22 {
        return skip_string(text, at + 1);
    }
    if b == 0x2D || is_digit(b) {
        return number_end(text, at).unwrap();
    }
    literal_end(text, at).unwrap()
}

#[cycle(member_end_skip_array_skip_object_skip_value_value_end)]
fn skip_array(text: &[u8], at: usize, ends: &mut [u16]) -> usize
    requires { Skippable text.now ends.old at × (byte_at text.now at ≡ 0x5B) }
    ensures { Spans text.now at result × Ends text.now ends.new }
{
    let mut i = skip_ws(text, at + 1);
    if byte(text, i) == 0x5D {
        return i + 1;
    }
    // Up to the bracket that closes it: a `for` does not say it plainer.
    loop {
        let end = skip_value(text, i, ends);
        let behind = skip_ws(text, end);
        if byte(text, behind) != 0x2C {
            return behind + 1;
        }
        i = skip_ws(text, behind + 1);
    }
}

// The end of the member whose name begins at the place.
#[cycle(member_end_skip_array_skip_object_skip_value_value_end)]
fn member_end(text: &[u8], at: usize, ends: &mut [u16]) -> usize
    requires { SkippableMember text.now ends.old at }
    ensures { MemberSpans text.now at result × Ends text.now ends.new }
{
    let colon = skip_ws(text, skip_string(text, at + 1));
    let value = skip_ws(text, colon + 1);
    skip_value(text, value, ends)
}

#[cycle(member_end_skip_array_skip_object_skip_value_value_end)]
fn skip_object(text: &[u8], at: usize, ends: &mut [u16]) -> usize
    requires { Skippable text.now ends.old at × (byte_at text.now at ≡ 0x7B) }
    ensures { Spans text.now at result × Ends text.now ends.new }
{
    let mut i = skip_ws(text, at + 1);
    if byte(text, i) == 0x7D {
        return i + 1;
    }
    // Up to the bracket that closes it: a `for` does not say it plainer.
    loop {
        let end = member_end(text, i, ends);
        let behind = skip_ws(text, end);
        if byte(text, behind) != 0x2C {
            return behind + 1;
        }
        i = skip_ws(text, behind + 1);
    }
}

// The end of the value at a place, found out.
#[cycle(member_end_skip_array_skip_object_skip_value_value_end)]
fn value_end(text: &[u8], at: usize, ends: &mut [u16]) -> usize
    requires { Skippable text.now ends.old at }
    ensures { Spans text.now at result × Ends text.now ends.new }
{
    let b = byte(text, at);
    if b == 0x5B {
        return skip_array(text, at, ends);
    }
    if b == 0x7B {
        return skip_object(text, at, ends);
    }
    scalar_end(text, at)
}

// The end of the value at a place, looked up or found out.
#[cycle(member_end_skip_array_skip_object_skip_value_value_end)]
pub fn skip_value(text: &[u8], at: usize, ends: &mut [u16]) -> usize
    requires { Skippable text.now ends.old at }
    ensures { Spans text.now at result × Ends text.now ends.new }
{
    let known = usize::from(ends[at]);
    if known != 0 {
        return known;
    }
    let end = value_end(text, at, ends);
    ends[at] = end as u16;
    end
}
