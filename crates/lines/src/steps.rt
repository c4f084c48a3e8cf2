// The steps of a line: a book event, a snapshot, time.
ghost use Rattle.std.specs.Prelude.{◌≡◌, List, ℕ, ◌+◌, ◌*◌, ◌≤◌, ◌<◌, ◌^◌, length};
ghost use Rattle.rules.specs.Quantities.{Key, same};
ghost use Rattle.rules.specs.Lines as Rules;
ghost use Rattle.event_log.specs.Log.{keys_of, Ring};
ghost use Rattle.place.specs.Items.{items_in};
ghost use Rattle.lines.specs.Line.{line_of, Steps, Ages, copy_step, end_step, event_step, snapshot_step, time_step};

use crate::{Aged, Aging, Line, Stepped};
use event_log::Head;
use log_borrowed::view::LogView;
use rules::{EventKey, Refusal, Step};

// A line that has not entered line by this age ends.
const ALIGN_TIMEOUT: u64 = 10_000;

// A line and the answer to its step.
fn stepped(line: Line, step: Step) -> Stepped
    ensures { result ≡ record { line = line; step = Ok step } }
{
    Stepped {
        line,
        step: Ok(step),
    }
}

// A line as it was, and why its step is refused.
fn refused(line: Line, refusal: Refusal) -> Stepped
    ensures { result ≡ record { line = line; step = Err refusal } }
{
    Stepped {
        line,
        step: Err(refusal),
    }
}

impl Line {
    // A book event of this key, over a log whose keys lie in `keys`, a ring of g; limit: how many items make it fail.
    pub fn event(self, keys: &[u64], g: usize, head: Head, limit: usize, key: EventKey) -> Stepped
        requires { (Ring g head.front head.count keys.now) × (head.base + head.count < 2 ^ 64) }
        ensures { (w : List ℕ) (msg : ℕ)
            → Steps result (event_step limit head.base (keys_of g head.front head.count keys.now) key msg (line_of self w)) }
    {
        match self {
            Line::Waiting { items, .. } | Line::Pending { items, .. } => {
                if limit <= items {
                    stepped(Line::Failed, Step::Failed)
                } else {
                    stepped(self.more(), Step::Held)
                }
            }
            Line::InLine { next, due0, due1 } => advance(next, due0, due1, keys, g, head, key),
            Line::Failed => stepped(self, Step::Ignored),
        }
    }

    // A snapshot of a token, 0 or 1; the line's area takes h + 8 items.
    pub fn snapshot(self, h: usize, token: u64) -> Stepped
        requires { h + 8 < 2 ^ 64 }
        ensures { (w : List ℕ) (msg : ℕ) → Steps result (snapshot_step h token msg (line_of self w)) }
    {
        match self {
            Line::Waiting { items, .. } => {
                if h + 8 <= items {
                    refused(self, Refusal::AreaFull)
                } else {
                    stepped(self.more(), Step::Held)
                }
            }
            Line::InLine { next, due0, due1 } => due_ends(next, due0, due1, token),
            Line::Pending { .. } | Line::Failed => stepped(self, Step::Ignored),
        }
    }

    // What time t makes of the line, over a log that begins at base.
    fn aging(self, base: u64, t: u64) -> Aging
        ensures { (w : List ℕ) → result ≡ (time_step base t (line_of self w)).1 }
    {
        match self {
            Line::Waiting { since, .. } => {
                if event_log::age(t, since) < ALIGN_TIMEOUT {
                    Aging::Stays
                } else {
                    Aging::Fails
                }
            }
            Line::Pending {
                snapshot,
                since,
                ..
            } => {
                if event_log::age(t, since) < ALIGN_TIMEOUT {
                    Aging::Stays
                } else if snapshot.is_some() {
                    Aging::Rebuilds
                } else {
                    Aging::Fails
                }
            }
            Line::InLine { next, .. } => {
                if next < base {
                    Aging::Fails
                } else {
                    Aging::Stays
                }
            }
            Line::Failed => Aging::Stays,
        }
    }

    // Time passes: it is t, over a log that begins at base.
    pub fn time(self, base: u64, t: u64) -> Aged
        ensures { (w : List ℕ) → Ages result (time_step base t (line_of self w)) }
    {
        let aging = self.aging(base, t);
        let line = match aging {
            Aging::Stays | Aging::Rebuilds => self,
            Aging::Fails => Line::Failed,
        };
        Aged { line, aging }
    }
}

// A book event to a line in line.
fn advance(
    next: u64,
    due0: bool,
    due1: bool,
    keys: &[u64],
    g: usize,
    head: Head,
    key: EventKey,
) -> Stepped
    requires { (Ring g head.front head.count keys.now) × (head.base + head.count < 2 ^ 64) }
    ensures { (limit msg : ℕ)
        → Steps result (event_step limit head.base (keys_of g head.front head.count keys.now) key msg (Rules.InLine next due0 due1)) }
{
    if next < head.base {
        return stepped(Line::Failed, Step::Failed);
    }
    let log = LogView {
        keys,
        base: head.base,
        count: head.count,
        front: head.front,
        g,
    };
    match log.key_at(next) {
        Some(there) => in_log(next, due0, due1, there, key),
        None => at_end(next, due0, due1),
    }
}

// A book event to a line in line whose next number is the log's end.
fn at_end(next: u64, due0: bool, due1: bool) -> Stepped
    ensures { Steps result (end_step next due0 due1) }
{
    if next == u64::MAX {
        return refused(Line::InLine { next, due0, due1 }, Refusal::NoNumber);
    }
    stepped(
        Line::InLine {
            next: next + 1,
            due0,
            due1,
        },
        Step::Apply(1),
    )
}

// A book event to a line in line whose next number the log has, with this key there.
fn in_log(number: u64, due0: bool, due1: bool, there: EventKey, key: EventKey) -> Stepped
    requires { number + 1 < 2 ^ 64 }
    ensures { Steps result (copy_step (same there key) number due0 due1) }
{
    if there == key {
        return stepped(
            Line::InLine {
                next: number + 1,
                due0,
                due1,
            },
            Step::Duplicate,
        );
    }
    stepped(
        Line::InLine {
            next: number,
            due0,
            due1,
        },
        Step::Diverged,
    )
}

// A snapshot of a token to a line in line.
fn due_ends(next: u64, due0: bool, due1: bool, token: u64) -> Stepped
    ensures { (h msg : ℕ) → Steps result (snapshot_step h token msg (Rules.InLine next due0 due1)) }
{
    if token == 0 && due0 {
        return stepped(
            Line::InLine {
                next,
                due0: false,
                due1,
            },
            Step::Apply(1),
        );
    }
    if token != 0 && due1 {
        return stepped(
            Line::InLine {
                next,
                due0,
                due1: false,
            },
            Step::Apply(1),
        );
    }
    stepped(Line::InLine { next, due0, due1 }, Step::Ignored)
}
