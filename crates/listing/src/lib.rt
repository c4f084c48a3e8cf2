// The replay program's text: 44-byte records as calls, and what the calls answer as lines.
#![tactic(auto)]

use rules::EventKey;
use std::error::Error;
use std::fmt;

pub mod reading;
pub mod writing;

// Why bytes are no record.
#[derive(Clone, Copy, Debug, PartialEq, Eq)]
pub enum Fault {
    // They are fewer than 44.
    Short,
    // They do not begin with the mark.
    Mark,
    // No call has their call byte.
    Call,
}

impl fmt::Display for Fault {
    fn fmt<W: fmt::Write>(&self, f: &mut fmt::Formatter<W>) -> fmt::Result {
        f.write_str(match self {
            Fault::Short => "a record has 44 bytes",
            Fault::Mark => "a record begins with MG",
            Fault::Call => "no call has this byte",
        })
    }
}

impl Error for Fault {}

// A record's call, with the fields that it uses.
#[derive(Clone, Copy, Debug, PartialEq, Eq)]
pub enum Call {
    // connection, time
    Subscribe(u64, u64),
    // connection, token, message, time
    Snapshot(u64, u64, u64, u64),
    // connection, key, message, time
    Book(u64, EventKey, u64, u64),
    Print(u64, EventKey, u64, u64),
    // connection, time
    Drop(u64, u64),
    // time
    Promote(u64),
    Reset(u64),
    // view answer of all lines, time
    Tick(u64, u64),
}
