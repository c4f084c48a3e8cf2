// Why a call is refused. A refused call changed nothing that was lent.
ghost use Rattle.std.specs.Prelude.{◌≡◌};
ghost use Rattle.rules.specs.Answers.{number_of};

use std::error::Error;
use std::fmt;

#[derive(Clone, Copy, Debug, PartialEq, Eq)]
pub enum Refusal {
    // The words are no sound store; of setup, too few for the limits.
    Unsound,
    // Setup's limits are out of range.
    Limits,
    // A lent list is too short.
    Room,
    // Every line is taken.
    Lines,
    // The log and the held items have come to the event limit.
    LogFull,
    // The line's area holds all the items that it takes.
    AreaFull,
    // No row is free for a print.
    NoRow,
    // The connection has delivered this print as often as can be counted.
    CountFull,
    // The log's end and the held items have come to the largest number.
    NoNumber,
    // A snapshot's token is above 1.
    Token,
    // Not one view answer, 0 or 1, for each line.
    ViewAnswers,
    // A line's limit is 0 or above H.
    LineLimit,
}

impl Refusal {
    // Its number in the rules.
    pub fn number(self) -> u64
        ensures { result ≡ number_of self }
    {
        match self {
            Refusal::Unsound => 1,
            Refusal::Limits => 2,
            Refusal::Room => 3,
            Refusal::Lines => 4,
            Refusal::LogFull => 5,
            Refusal::AreaFull => 6,
            Refusal::NoRow => 7,
            Refusal::CountFull => 8,
            Refusal::NoNumber => 9,
            Refusal::Token => 10,
            Refusal::ViewAnswers => 11,
            Refusal::LineLimit => 18,
        }
    }
}

impl fmt::Display for Refusal {
    fn fmt<W: fmt::Write>(&self, f: &mut fmt::Formatter<W>) -> fmt::Result {
        f.write_str(match self {
            Refusal::Unsound => "the words are no sound store",
            Refusal::Limits => "the limits are out of range",
            Refusal::Room => "a lent list is too short",
            Refusal::Lines => "every line is taken",
            Refusal::LogFull => "the log and the held items have come to the event limit",
            Refusal::AreaFull => "the line's area is full",
            Refusal::NoRow => "no row is free for the print",
            Refusal::CountFull => "the print was delivered as often as can be counted",
            Refusal::NoNumber => "no event number is left",
            Refusal::Token => "the token is above 1",
            Refusal::ViewAnswers => "not one view answer, 0 or 1, for each line",
            Refusal::LineLimit => "the line's limit is 0 or above the held limit",
        })
    }
}

impl Error for Refusal {}
