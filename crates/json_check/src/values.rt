// One step at a value: past it, or into it where it is an array or an object.
ghost use Rattle.std.specs.Prelude.{◌≡◌, Bool, List, ◌+◌, ◌-◌, ◌≤◌, ◌<◌, length, take, drop};
ghost use Rattle.json_text.specs.Refusals.{longest, number_fault, depth_fault, first};
ghost use Rattle.json_text.specs.Work.{skip_ws};
ghost use Rattle.json_check.specs.Runs.{in_array, in_object, of_string, of_number, of_literal, of_value};
ghost use Rattle.json_check.specs.Numbers.{number_of};
ghost use Rattle.json_check.specs.Steps.{stack, Inside, Ready, Stepped};

use crate::{Place, Refusal, Step};
use json_text::bytes::{byte, is_digit, skip_ws};
use json_text::names::{literal_end, name_end};
use json_text::numbers::{number_allowed, number_end};
use json_text::strings::string_end;

// Of an array or object that others enclose.
#[tactic(auto, unfolding(json_text::specs::Refusals::depth_fault))]
fn depth_fault(depth: usize) -> Result<(), Refusal>
    ensures { number_of result ≡ depth_fault depth }
{
    if depth < 16 {
        Ok(())
    } else {
        Err(Refusal::Depth)
    }
}

// Of the number between two places.
#[tactic(auto, unfolding(json_text::specs::Refusals::number_fault))]
fn number_fault(text: &[u8], from: usize, to: usize) -> Result<(), Refusal>
    requires { (from < to) × (to ≤ length text.now) }
    ensures { number_of result ≡ number_fault (take (to - from) (drop from text.now)) }
{
    if number_allowed(text, from, to) {
        Ok(())
    } else {
        Err(Refusal::Number)
    }
}

// Into an array whose bracket stands at the place.
fn array_step(text: &[u8], opened: &mut [bool], p: Place) -> Option<Step>
    requires { Ready text.now opened.old p × (p.at < length text.now) }
    ensures { Stepped text.now opened.new p.at
        (in_array (stack opened.old p.depth) (skip_ws (drop (p.at + 1) text.now)) (first (number_of p.found) (depth_fault p.depth))) result }
{
    let found = p.found.and(depth_fault(p.depth));
    let at = skip_ws(text, p.at + 1);
    if byte(text, at) == 0x5D {
        return Some(Step::After(Place {
            at: at + 1,
            found,
            ..p
        }));
    }
    opened[p.depth] = true;
    Some(Step::Value(Place {
        at,
        depth: p.depth + 1,
        found,
    }))
}

// Into an object whose bracket stands at the place.
fn object_step(text: &[u8], opened: &mut [bool], p: Place) -> Option<Step>
    requires { Ready text.now opened.old p × (p.at < length text.now) }
    ensures { Stepped text.now opened.new p.at
        (in_object (stack opened.old p.depth) (skip_ws (drop (p.at + 1) text.now)) (first (number_of p.found) (depth_fault p.depth))) result }
{
    let found = p.found.and(depth_fault(p.depth));
    let at = skip_ws(text, p.at + 1);
    if byte(text, at) == 0x7D {
        return Some(Step::After(Place {
            at: at + 1,
            found,
            ..p
        }));
    }
    let end = name_end(text, at)?;
    opened[p.depth] = false;
    Some(Step::Value(Place {
        at: end,
        depth: p.depth + 1,
        found,
    }))
}

// Past a string whose mark stands at the place.
fn string_step(text: &[u8], p: Place) -> Option<Step>
    requires { Inside text.now p × (p.at < length text.now) × (length text.now ≤ longest) }
    ensures { (opened : List Bool) →
        Stepped text.now opened p.at (of_string (stack opened p.depth) (drop p.at text.now) (number_of p.found)) result }
{
    let end = string_end(text, p.at + 1)?;
    Some(Step::After(Place { at: end, ..p }))
}

// Past a number.
fn number_step(text: &[u8], p: Place) -> Option<Step>
    requires { Inside text.now p }
    ensures { (opened : List Bool) →
        Stepped text.now opened p.at (of_number (stack opened p.depth) (drop p.at text.now) (number_of p.found)) result }
{
    let end = number_end(text, p.at)?;
    let found = p.found.and(number_fault(text, p.at, end));
    Some(Step::After(Place {
        at: end,
        found,
        ..p
    }))
}

// Past null, true or false.
fn literal_step(text: &[u8], p: Place) -> Option<Step>
    requires { Inside text.now p }
    ensures { (opened : List Bool) →
        Stepped text.now opened p.at (of_literal (stack opened p.depth) (drop p.at text.now) (number_of p.found)) result }
{
    let end = literal_end(text, p.at)?;
    Some(Step::After(Place { at: end, ..p }))
}

pub fn value_step(text: &[u8], opened: &mut [bool], p: Place) -> Option<Step>
    requires { Ready text.now opened.old p }
    ensures { Stepped text.now opened.new p.at
        (of_value (stack opened.old p.depth) (drop p.at text.now) (number_of p.found)) result }
{
    let b = byte(text, p.at);
    if b == 0x22 {
        return string_step(text, p);
    }
    if b == 0x2D || is_digit(b) {
        return number_step(text, p);
    }
    if b == 0x5B {
        return array_step(text, opened, p);
    }
    if b == 0x7B {
        return object_step(text, opened, p);
    }
    literal_step(text, p)
}
