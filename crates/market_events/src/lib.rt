// The book event, on a sound store.
#![tactic(auto)]

ghost use Rattle.std.specs.Prelude.{ℕ, ◌<◌};
ghost use Rattle.rules.specs.Lines.{line_of, line_for};
ghost use Rattle.rules.specs.Calls as Rules;
ghost use Rattle.rules.specs.Calls.{apply, held};
ghost use Rattle.rules.specs.Answers.{word, of_step};
ghost use Rattle.lines.specs.Line.{Steps};
ghost use Rattle.store.specs.Store.{line_count, market_of, Sound};
ghost use Rattle.market.specs.Lent.{lent, Answers, Roomy};
ghost use Rattle.market_events.specs.Events.{step_at, event_at, Becomes, line_up_answers};

use lines::{Line, Stepped};
use rules::{EventKey, Item, Refusal, Step};

// What the i-th line makes of a book event of this key.
fn step_of(s: &[u64], i: usize, key: EventKey) -> Stepped
    requires { (Sound s.now) × (i < line_count s.now) }
    ensures { (message : ℕ) → Steps result (step_at i key message (market_of s.now)) }
{
    let limits = store::entries::limits(s);
    let head = store::entries::head(s);
    let limit = store::conns::limit_at(s, i);
    store::conns::line_at(s, i).event(store::entries::keys(s), limits.G as usize, head, limit, key)
}

// A pending line that holds one event more tries to line up.
fn pending_event(s: &mut [u64], out: &mut [u64], i: usize, t: u64) -> Step
    requires { (Roomy s.old out.old) × (i < line_count s.old) }
    ensures { Answers (line_up_answers i t (market_of s.old))
        (lent s.old out.old) (of_step (Ok result)) (lent s.new out.new) }
{
    let n = market_snapshots::released(s, out, i, t);
    if n != 0 {
        return Step::Apply(n);
    }
    if store::conns::line_at(s, i).in_line() {
        return Step::Duplicate;
    }
    Step::Held
}

// A book event that the i-th line holds, which becomes `line`; a pending one tries to line up.
fn held_event(
    s: &mut [u64],
    out: &mut [u64],
    i: usize,
    line: Line,
    key: EventKey,
    message: u64,
    t: u64,
) -> Result<Step, Refusal>
    requires { (Roomy s.old out.old) × (Becomes s.old i key message line (word held 0 0)) }
    ensures { Answers (event_at i key message t (market_of s.old))
        (lent s.old out.old) (of_step result) (lent s.new out.new) }
{
    market_snapshots::room(s)?;
    store::conns::hold_item(s, i, Item::Event(key, message));
    if line.pending() {
        return Ok(pending_event(s, out, i, t));
    }
    Ok(Step::Held)
}

// A book event that the i-th line, in line, brings first: pushed and put out, and the pending lines are tried.
fn new_event(
    s: &mut [u64],
    out: &mut [u64],
    i: usize,
    line: Line,
    key: EventKey,
    message: u64,
    t: u64,
) -> Result<Step, Refusal>
    requires { (Roomy s.old out.old) × (Becomes s.old i key message line (word apply 1 0)) }
    ensures { Answers (event_at i key message t (market_of s.old))
        (lent s.old out.old) (of_step result) (lent s.new out.new) }
{
    market_snapshots::room(s)?;
    let conn = store::conns::conn_at(s, i);
    let n = moves::entering::push_out(s, out, 0, conn, t, key, message);
    store::conns::set_line(s, i, line);
    Ok(Step::Apply(moves::lining_up::align_pending(s, out, n, t)))
}

// A book event by a connection.
pub fn book_event(
    s: &mut [u64],
    out: &mut [u64],
    conn: u64,
    key: EventKey,
    message: u64,
    t: u64,
) -> Result<Step, Refusal>
    requires { Roomy s.old out.old }
    ensures { Answers (Rules.book_event (line_of conn (market_of s.old)) key message t (market_of s.old)
        (line_for conn (market_of s.old)))
        (lent s.old out.old) (of_step result) (lent s.new out.new) }
{
    let i = store::conns::find(s, conn);
    if store::conns::count(s) <= i {
        return Ok(Step::Ignored);
    }
    let stepped = step_of(s, i, key);
    let line = stepped.line;
    let step = match stepped.step {
        Ok(step) => step,
        // the line has no number left; a full log comes before that
        Err(refusal) => {
            market_snapshots::room(s)?;
            return Err(refusal);
        }
    };
    match step {
        Step::Apply(_) => new_event(s, out, i, line, key, message, t),
        Step::Held => held_event(s, out, i, line, key, message, t),
        Step::Duplicate | Step::Failed => {
            store::conns::set_line(s, i, line);
            Ok(step)
        }
        Step::Ignored | Step::Diverged => Ok(step),
    }
}
