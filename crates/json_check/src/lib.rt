// Whether bytes are a message that is to be accepted: the refusals 15, 16 and 17 of request 4, for whatever bytes come.
#![tactic(auto)]

ghost use Rattle.std.specs.Prelude.{◌≡◌, ◌≤◌, length};
ghost use Rattle.json_text.specs.Refusals.{longest, Judged};
ghost use Rattle.json_check.specs.Numbers.{number, number_of};

use read::read_text;
use std::error::Error;
use std::fmt;

mod after;
mod read;
mod values;

// Why a message is refused: its bytes are too many or no JSON text; one of its numbers is outside the rule; it is nested too deep.
#[derive(Clone, Copy, Debug, PartialEq, Eq)]
pub enum Refusal {
    NoText,
    Number,
    Depth,
}

impl Refusal {
    pub fn number(self) -> u64
        ensures { result ≡ number self }
    {
        match self {
            Refusal::NoText => 15,
            Refusal::Number => 16,
            Refusal::Depth => 17,
        }
    }
}

impl fmt::Display for Refusal {
    fn fmt<W: fmt::Write>(&self, f: &mut fmt::Formatter<W>) -> fmt::Result {
        f.write_str(match self {
            Refusal::NoText => "no JSON text, or too long",
            Refusal::Number => "a number is outside the rule",
            Refusal::Depth => "nested too deep",
        })
    }
}

impl Error for Refusal {}

// A place in a text: how many brackets are open there, and the first fault in front of it.
#[derive(Clone, Copy)]
pub struct Place {
    pub at: usize,
    pub depth: usize,
    pub found: Result<(), Refusal>,
}

// Where reading goes on: at a value, or behind one; or that it is done, with the first fault of the text.
#[derive(Clone, Copy)]
pub enum Step {
    Value(Place),
    After(Place),
    Done(Result<(), Refusal>),
}

// Checks up to N bytes, with room for as many open brackets as there are bytes.
fn within<const N: usize>(text: &[u8]) -> Result<(), Refusal>
    requires { (length text.now ≤ N) × (N ≤ longest) }
    ensures { Judged text.now (number_of result) }
{
    let mut opened = [false; N];
    read_text(text, &mut opened)
}

// Whether the bytes are a message that is to be accepted; an Err says why not, by the first fault.
pub fn check(text: &[u8]) -> Result<(), Refusal>
    ensures { Judged text.now (number_of result) }
{
    if text.len() <= 512 {
        return within::<512>(text);
    }
    if text.len() <= 4096 {
        return within::<4096>(text);
    }
    if text.len() <= 32768 {
        return within::<32768>(text);
    }
    Err(Refusal::NoText)
}
