// The eight public calls: any words, any lengths, any times. What each of them promises is in crate promise.
#![tactic(auto)]

ghost use Rattle.rules.specs.Refusals.{Subscribe, Snapshot, BookEvent, Print, Drop, Promote, Reset, Tick};
ghost use Rattle.rules.specs.Answers.{of_step, of_changed, of_lost, of_ticked};
ghost use Rattle.market.specs.Lent.{lent, alone};
ghost use Rattle.market_tick.specs.Turns.{lent_all};
ghost use Rattle.steps.specs.Steps.{records, report_room};
ghost use Rattle.promise.specs.Meets.{Promise, of_call, says};

use rules::{EventKey, Lost, Refusal, Step, Ticked};

// A connection subscribes: its delivered counts go, and its line becomes Waiting, empty, since t, with this limit, 1 to H.
pub fn subscribe(s: &mut [u64], conn: u64, limit: u64, t: u64) -> Result<(), Refusal>
    ensures { Promise (of_call (Subscribe conn limit t)) (alone s.old) (says (of_changed result)) (alone s.new) }
{
    sound::check(s)?;
    steps::subscribe(s, conn, limit, t)
}

// A connection sends a snapshot of a token, 0 or 1.
pub fn snapshot(
    s: &mut [u64],
    out: &mut [u64],
    conn: u64,
    token: u64,
    message: u64,
    t: u64,
) -> Result<Step, Refusal>
    ensures { Promise (of_call (Snapshot conn token message t (records out.old)))
        (lent s.old out.old) (says (of_step result)) (lent s.new out.new) }
{
    sound::check(s)?;
    steps::snapshot(s, out, conn, token, message, t)
}

// A connection sends a book event.
pub fn book_event(
    s: &mut [u64],
    out: &mut [u64],
    conn: u64,
    key: EventKey,
    message: u64,
    t: u64,
) -> Result<Step, Refusal>
    ensures { Promise (of_call (BookEvent conn key message t (records out.old)))
        (lent s.old out.old) (says (of_step result)) (lent s.new out.new) }
{
    sound::check(s)?;
    steps::book_event(s, out, conn, key, message, t)
}

// A connection sends a print: any message that is neither a snapshot nor a book event.
pub fn other(
    s: &mut [u64],
    out: &mut [u64],
    conn: u64,
    key: EventKey,
    message: u64,
    t: u64,
) -> Result<Step, Refusal>
    ensures { Promise (of_call (Print conn key message t (records out.old)))
        (lent s.old out.old) (says (of_step result)) (lent s.new out.new) }
{
    sound::check(s)?;
    steps::other(s, out, conn, key, message, t)
}

// A connection is gone: its line goes, and if it was in line the others are promoted.
pub fn drop_conn(s: &mut [u64], out: &mut [u64], conn: u64, t: u64) -> Result<Lost, Refusal>
    ensures { Promise (of_call (Drop conn t (records out.old)))
        (lent s.old out.old) (says (of_lost result)) (lent s.new out.new) }
{
    sound::check(s)?;
    steps::drop_conn(s, out, conn, t)
}

// Where nobody is in line, the line with the best claim takes over.
pub fn promote(s: &mut [u64], out: &mut [u64], t: u64) -> Result<Lost, Refusal>
    ensures { Promise (of_call (Promote t (records out.old)))
        (lent s.old out.old) (says (of_lost result)) (lent s.new out.new) }
{
    sound::check(s)?;
    steps::promote(s, out, t)
}

// Empties the log; every line but a Failed one becomes Pending, empty, since t.
pub fn reset(s: &mut [u64], t: u64) -> Result<(), Refusal>
    ensures { Promise (of_call (Reset t)) (alone s.old) (says (of_changed result)) (alone s.new) }
{
    sound::check(s)?;
    steps::reset(s, t)
}

// Time passes: old entries and print keys go, and each line has its turn.
pub fn tick(
    s: &mut [u64],
    out: &mut [u64],
    reports: &mut [u64],
    answers: &[u64],
    t: u64,
) -> Result<Ticked, Refusal>
    ensures { Promise
        (of_call (Tick answers.now t (records out.old) (report_room reports.old)))
        (lent_all s.old out.old reports.old) (says (of_ticked result))
        (lent_all s.new out.new reports.new) }
{
    sound::check(s)?;
    steps::tick(s, out, reports, answers, t)
}
