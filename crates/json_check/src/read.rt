// A whole text, step by step.
ghost use Rattle.std.specs.Prelude.{◌≡◌, ◌≤◌, length};
ghost use Rattle.json_text.specs.Refusals.{longest, Judged};
ghost use Rattle.json_check.specs.Numbers.{number_of};

use crate::after::after_step;
use crate::values::value_step;
use crate::{Place, Refusal, Step};
use json_text::bytes::skip_ws;

// Reads a text to its end, with room for as many open brackets as there are bytes.
pub fn read_text(text: &[u8], opened: &mut [bool]) -> Result<(), Refusal>
    requires { (length text.now ≤ longest) × (length text.now ≤ length opened.old) }
    ensures { Judged text.now (number_of result) }
{
    let mut step = Step::Value(Place {
        at: skip_ws(text, 0),
        depth: 0,
        found: Ok(()),
    });
    // From step to step up to the end of the text: a `for` does not say it plainer.
    loop {
        match step {
            Step::Value(p) => {
                step = value_step(text, opened, p).ok_or(Refusal::NoText)?;
            }
            Step::After(p) => {
                step = after_step(text, opened, p).ok_or(Refusal::NoText)?;
            }
            Step::Done(found) => {
                return found;
            }
        }
    }
}
