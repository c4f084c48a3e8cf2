// The plain types that the rules and the code share. A type named in the Rust keeps its name there.
#![tactic(auto)]

pub mod refusal;

pub use refusal::Refusal;

// A message's identity: two hashes of its content.
#[derive(Clone, Copy, Debug, PartialEq, Eq)]
pub struct EventKey(pub u64, pub u64);

// What setup fixes: lines L, held limit H, event limit G, print keys C, count pairs D.
#[derive(Clone, Copy, Debug, PartialEq, Eq)]
pub struct Limits {
    pub L: u64,
    pub H: u64,
    pub G: u64,
    pub C: u64,
    pub D: u64,
}

#[derive(Clone, Copy, Debug, PartialEq, Eq)]
pub enum Kind {
    Snapshot,
    Book,
    Print,
}

// A put-out record.
#[derive(Clone, Copy, Debug, PartialEq, Eq)]
pub struct Applied {
    pub conn: u64,
    pub kind: Kind,
    pub number: u64,
    pub key: EventKey,
    pub message: u64,
    pub times: u64,
}

// What a line that is not in line holds: a snapshot (token, message) or an event (key, message).
#[derive(Clone, Copy, Debug, PartialEq, Eq)]
pub enum Item {
    Snapshot(u64, u64),
    Event(EventKey, u64),
}

// A tick report: the connection, and the count of its records.
#[derive(Clone, Copy, Debug, PartialEq, Eq)]
pub enum Expired {
    Aligned(u64, usize),
    Rebuild(u64, usize),
    Failed(u64),
}

// What a snapshot, a book event or a print is answered, unless it is refused; Apply counts its records.
#[derive(Clone, Copy, Debug, PartialEq, Eq)]
pub enum Step {
    Apply(usize),
    Duplicate,
    Held,
    Ignored,
    Diverged,
    Failed,
}

// What a drop or a promote is answered, unless it is refused; Rebuild counts its records.
#[derive(Clone, Copy, Debug, PartialEq, Eq)]
pub enum Lost {
    Kept,
    Gone,
    Rebuild(usize),
}

// What a tick is answered, unless it is refused: how many reports there are, and how many records they have.
#[derive(Clone, Copy, Debug, PartialEq, Eq)]
pub struct Ticked {
    pub reports: usize,
    pub records: usize,
}
