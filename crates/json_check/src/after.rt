// One step behind a value.
ghost use Rattle.std.specs.Prelude.{◌≡◌, Bool, true, false, List, ◌∷◌, ◌+◌, ◌≤◌, ◌<◌, length, drop, get_or};
ghost use Rattle.json_text.specs.Refusals.{longest};
ghost use Rattle.json_text.specs.Work.{skip_ws};
ghost use Rattle.json_check.specs.Runs.{after_item, after_member, of_after};
ghost use Rattle.json_check.specs.Numbers.{number_of};
ghost use Rattle.json_check.specs.Steps.{stack, Inside, Ready, Stepped};

use crate::{Place, Step};
use json_text::bytes::{byte, skip_ws};
use json_text::names::name_end;

// Behind an item of the innermost array and its ws: out of the array, or to its next item.
fn item_step(text: &[u8], p: Place) -> Option<Step>
    requires { Inside text.now p × (0 < p.depth) }
    ensures { (opened : List Bool) (k : List Bool) → p.depth ≤ length opened → stack opened p.depth ≡ true ∷ k →
        Stepped text.now opened p.at (after_item k (drop p.at text.now) (number_of p.found)) result }
{
    let b = byte(text, p.at);
    if b == 0x5D {
        return Some(Step::After(Place {
            at: p.at + 1,
            depth: p.depth - 1,
            ..p
        }));
    }
    if b == 0x2C {
        return Some(Step::Value(Place {
            at: skip_ws(text, p.at + 1),
            ..p
        }));
    }
    None
}

// Behind a member of the innermost object and its ws: out of the object, or to its next member's value.
fn member_step(text: &[u8], p: Place) -> Option<Step>
    requires { Inside text.now p × (0 < p.depth) × (length text.now ≤ longest) }
    ensures { (opened : List Bool) (k : List Bool) → p.depth ≤ length opened → stack opened p.depth ≡ false ∷ k →
        Stepped text.now opened p.at (after_member k (drop p.at text.now) (number_of p.found)) result }
{
    let b = byte(text, p.at);
    if b == 0x7D {
        return Some(Step::After(Place {
            at: p.at + 1,
            depth: p.depth - 1,
            ..p
        }));
    }
    if b != 0x2C {
        return None;
    }
    let end = name_end(text, skip_ws(text, p.at + 1))?;
    Some(Step::Value(Place { at: end, ..p }))
}

pub fn after_step(text: &[u8], opened: &[bool], p: Place) -> Option<Step>
    requires { Ready text.now opened.now p }
    ensures { Stepped text.now opened.now p.at
        (of_after (stack opened.now p.depth) (skip_ws (drop p.at text.now)) (number_of p.found)) result }
{
    let at = skip_ws(text, p.at);
    if p.depth == 0 {
        if at == text.len() {
            return Some(Step::Done(p.found));
        }
        return None;
    }
    let next = Place { at, ..p };
    if opened[p.depth - 1] {
        item_step(text, next)
    } else {
        member_step(text, next)
    }
}
