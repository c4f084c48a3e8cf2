// A connection's line, by value: its methods take it and hand it back. Its items lie in a lent area.
#![tactic(auto)]

pub mod area;
pub mod steps;

ghost use Rattle.std.specs.Prelude.{◌≡◌, false, List, [], ◌∷◌, ◌++◌, ℕ, ◌+◌, ◌*◌, ◌≤◌, ◌<◌, length};
ghost use Rattle.rules.specs.declared.Item.{Item};
ghost use Rattle.rules.specs.Quantities.{max_number};
ghost use Rattle.rules.specs.Lines as Rules;
ghost use Rattle.rules.specs.Lines.{items_of, is_pending, is_in_line, is_failed, is_due};
ghost use Rattle.rules.specs.Calls.{claim, pending_anew};
ghost use Rattle.rules.specs.Tick.{out_of_line};
ghost use Rattle.rules.specs.Refusals.{can_serve};
ghost use Rattle.place.specs.Items.{items_in};
ghost use Rattle.lines.specs.Line.{line_of, held_of, Stands, holding, complete, holds_both, taken_over, snapshot_quiet, claim_of};

use rules::{Refusal, Step};

#[derive(Clone, Copy, Debug, PartialEq, Eq)]
pub enum Line {
    // Subscribed; how many items came so far.
    Waiting {
        items: usize,
        since: u64,
    },
    // Holding its events until they line up with the log; when its snapshot completed, if one counts.
    Pending {
        items: usize,
        snapshot: Option<u64>,
        since: u64,
    },
    // The number of its next book event; the tokens whose snapshot is due.
    InLine {
        next: u64,
        due0: bool,
        due1: bool,
    },
    // Out of the market's lines until it subscribes again.
    Failed,
}

// A line that took a step, and its answer.
#[derive(Clone, Copy, Debug, PartialEq, Eq)]
pub struct Stepped {
    pub line: Line,
    pub step: Result<Step, Refusal>,
}

// What time makes of a line; or that the market is rebuilt from it.
#[derive(Clone, Copy, Debug, PartialEq, Eq)]
pub enum Aging {
    Stays,
    Fails,
    Rebuilds,
}

// A line as time left it.
#[derive(Clone, Copy, Debug, PartialEq, Eq)]
pub struct Aged {
    pub line: Line,
    pub aging: Aging,
}

// A line's claim to be the source of a new book: the later time of a snapshot that is complete, before the later since of a line that
// waits for the rest of its own.
#[derive(Clone, Copy, Debug, PartialEq, Eq, PartialOrd, Ord)]
pub struct Claim {
    pub pending: bool,
    pub time: u64,
}

impl Line {
    // Subscribed at t.
    pub fn waiting(t: u64) -> Line
        ensures { (w : List ℕ) → line_of result w ≡ Rules.Waiting [] t }
    {
        Line::Waiting { items: 0, since: t }
    }

    // Pending since t, without items, and no snapshot of it counts.
    fn pending_since(t: u64) -> Line
        ensures { (w : List ℕ) → line_of result w ≡ Rules.Pending [] None t }
    {
        Line::Pending {
            items: 0,
            snapshot: None,
            since: t,
        }
    }

    pub fn in_line(self) -> bool
        ensures { (w : List ℕ) → result ≡ is_in_line (line_of self w) }
    {
        matches!(self, Line::InLine { .. })
    }

    pub fn pending(self) -> bool
        ensures { (w : List ℕ) → result ≡ is_pending (line_of self w) }
    {
        matches!(self, Line::Pending { .. })
    }

    pub fn failed(self) -> bool
        ensures { (w : List ℕ) → result ≡ is_failed (line_of self w) }
    {
        matches!(self, Line::Failed)
    }

    // In line, and a snapshot is due.
    pub fn due(self) -> bool
        ensures { (w : List ℕ) → result ≡ is_due (line_of self w) }
    {
        match self {
            Line::InLine { due0, due1, .. } => due0 || due1,
            _ => false,
        }
    }

    // How many items it holds.
    pub fn held(self) -> usize
        ensures { (w : List ℕ) → result ≡ length (items_of (line_of self w)) }
    {
        match self {
            Line::Waiting { items, .. } | Line::Pending { items, .. } => items,
            Line::InLine { .. } | Line::Failed => 0,
        }
    }

    // In line, or able to start the market's book.
    pub fn servable(self) -> bool
        ensures { (w : List ℕ) → result ≡ can_serve (line_of self w) }
    {
        match self {
            Line::Pending { snapshot, .. } => snapshot.is_some(),
            Line::Waiting { .. } | Line::InLine { .. } => true,
            Line::Failed => false,
        }
    }

    // After a reset at t: pending anew, unless it has failed.
    pub fn reset(self, t: u64) -> Line
        ensures { (w : List ℕ) → line_of result w ≡ pending_anew t (line_of self w) }
    {
        match self {
            Line::Failed => self,
            _ => Line::pending_since(t),
        }
    }

    // When another line rebuilds the market at t: one in line is pending anew.
    pub fn out_of_line(self, t: u64) -> Line
        ensures { (w : List ℕ) → line_of result w ≡ out_of_line t (line_of self w) }
    {
        match self {
            Line::InLine { .. } => Line::pending_since(t),
            _ => self,
        }
    }

    // A Waiting line whose snapshot is complete at t.
    pub fn complete(self, t: u64) -> Line
        ensures { (w : List ℕ) → line_of result w ≡ complete t (line_of self w) }
    {
        match self {
            Line::Waiting { items, .. } => Line::Pending {
                items,
                snapshot: Some(t),
                since: t,
            },
            _ => self,
        }
    }

    // With one item more behind those that it holds.
    pub fn more(self) -> Line
        requires { held_of self < max_number }
        ensures { (w : List ℕ) (item : Item) → Stands result (holding item (line_of self w)) }
    {
        match self {
            Line::Waiting { items, since } => Line::Waiting {
                items: items + 1,
                since,
            },
            Line::Pending {
                items,
                snapshot,
                since,
            } => Line::Pending {
                items: items + 1,
                snapshot,
                since,
            },
            Line::InLine { .. } | Line::Failed => self,
        }
    }

    // Whether its snapshot is quiet at t.
    pub fn quiet(self, t: u64) -> bool
        ensures { (w : List ℕ) → result ≡ snapshot_quiet t (line_of self w) }
    {
        match self {
            Line::Pending { snapshot, .. } => event_log::quiet(snapshot, t, false),
            _ => false,
        }
    }

    // Its claim to be the source of a new book.
    pub fn claim(self, items: &[u64]) -> Option<Claim>
        requires { 4 * held_of self ≤ length items.now }
        ensures { claim_of result ≡ claim (line_of self items.now) }
    {
        match self {
            Line::Waiting { items: n, since } => {
                if place::holds_snapshot(items, n) {
                    Some(Claim {
                        pending: false,
                        time: since,
                    })
                } else {
                    None
                }
            }
            Line::Pending { snapshot, .. } => snapshot.map(|time| Claim {
                pending: true,
                time,
            }),
            Line::InLine { .. } | Line::Failed => None,
        }
    }

    // Whether it holds a snapshot of each token.
    pub fn holds_snapshots(self, items: &[u64]) -> bool
        requires { 4 * held_of self ≤ length items.now }
        ensures { result ≡ holds_both (items_of (line_of self items.now)) }
    {
        let n = self.held();
        place::holds_token(items, n, 0) && place::holds_token(items, n, 1)
    }

    // In line after a take-over: due for each token that it holds no snapshot of.
    pub fn taken_over(self, items: &[u64], next: u64) -> Line
        requires { 4 * held_of self ≤ length items.now }
        ensures { (w : List ℕ) → line_of result w ≡ taken_over next (items_of (line_of self items.now)) }
    {
        let n = self.held();
        Line::InLine {
            next,
            due0: !place::holds_token(items, n, 0),
            due1: !place::holds_token(items, n, 1),
        }
    }

    // In line after a line-up: due nothing.
    pub fn lined_up(next: u64) -> Line
        ensures { (w : List ℕ) → line_of result w ≡ Rules.InLine next false false }
    {
        Line::InLine {
            next,
            due0: false,
            due1: false,
        }
    }
}
