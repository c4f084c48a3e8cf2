// The snapshot, on a sound store.
#![tactic(auto)]

ghost use Rattle.std.specs.Prelude.{◌≡◌, ℕ, ◌≤◌, ◌<◌};
ghost use Rattle.rules.specs.Lines.{line_of, line_for};
ghost use Rattle.rules.specs.Calls as Rules;
ghost use Rattle.rules.specs.Calls.{apply, held};
ghost use Rattle.rules.specs.Answers.{word, of_step};
ghost use Rattle.lines.specs.Line as Lines;
ghost use Rattle.lines.specs.Line.{Steps};
ghost use Rattle.lines.specs.Steps.{after_snapshot};
ghost use Rattle.store.specs.Store.{line_count, market_of, Sound};
ghost use Rattle.store.specs.ConnMoves.{items_at};
ghost use Rattle.market.specs.Lent.{lent, Answers, Roomy};
ghost use Rattle.market_snapshots.specs.Snapshots.{fullness, fullness_of, step_at, snapshot_at, Fits, Released, completed};

use lines::{Line, Stepped};
use rules::{Item, Refusal, Step};

// Whether an item more may come: not where the log and the items fill the log's room, nor where they use all numbers.
pub fn room(s: &[u64]) -> Result<(), Refusal>
    requires { Sound s.now }
    ensures { fullness_of result ≡ fullness (market_of s.now) }
{
    let held = store::conns::held_items(s) as u64;
    let all = store::entries::count(s) as u64 + held;
    if store::entries::limits(s).G <= all {
        return Err(Refusal::LogFull);
    }
    if u64::MAX <= store::entries::end(s) + held {
        return Err(Refusal::NoNumber);
    }
    Ok(())
}

// What the i-th line makes of a snapshot of this token.
fn step_of(s: &[u64], i: usize, token: u64) -> Stepped
    requires { (Sound s.now) × (i < line_count s.now) }
    ensures { (message : ℕ) → Steps result (step_at i token message (market_of s.now)) }
{
    let h = store::conns::held_limit(s);
    store::conns::line_at(s, i).snapshot(h, token)
}

// A snapshot that was due to the i-th line, which becomes `line`: put out, and the pending lines are tried.
fn due_snapshot(s: &mut [u64], out: &mut [u64], i: usize, line: Line, message: u64, t: u64) -> Step
    requires { (Roomy s.old out.old) × (Fits s.old i line) }
    ensures { Answers (after_snapshot i message t (market_of s.old)
        (Lines.line_of line (items_at s.old i), word apply 1 0))
        (lent s.old out.old) (of_step (Ok result)) (lent s.new out.new) }
{
    let conn = store::conns::conn_at(s, i);
    store::conns::set_line(s, i, line);
    let n = moves::entering::put_snapshot(s, out, 0, conn, t, message);
    Step::Apply(moves::lining_up::align_pending(s, out, n, t))
}

// A line tries to line up; if anything was put out, the pending lines are tried. How many records there are then.
pub fn released(s: &mut [u64], out: &mut [u64], i: usize, t: u64) -> usize
    requires { (Roomy s.old out.old) × (i < line_count s.old) }
    ensures { Released i t s.old out.old s.new out.new result }
{
    let n = moves::lining_up::try_align(s, out, 0, i, t, false);
    if n == 0 {
        return 0;
    }
    moves::lining_up::align_pending(s, out, n, t)
}

// A line that holds a snapshot more, while another is in line: with both tokens it becomes Pending and tries to line up.
fn complete_snapshot(s: &mut [u64], out: &mut [u64], i: usize, t: u64) -> Step
    requires { (Roomy s.old out.old) × (i < line_count s.old) }
    ensures { Answers (completed i t (market_of s.old))
        (lent s.old out.old) (of_step (Ok result)) (lent s.new out.new) }
{
    let line = store::conns::line_at(s, i);
    if line.holds_snapshots(store::conns::items(s, i)) {
        store::conns::set_line(s, i, line.complete(t));
        let n = released(s, out, i, t);
        if n != 0 {
            return Step::Apply(n);
        }
    }
    Step::Held
}

// A snapshot that the i-th line holds: the line may start the book, or try to line up.
fn held_snapshot(
    s: &mut [u64],
    out: &mut [u64],
    i: usize,
    token: u64,
    message: u64,
    t: u64,
) -> Result<Step, Refusal>
    requires roomy { (Roomy s.old out.old) × (i < line_count s.old) }
    requires token_bound { (token ≤ 1) × ((step_at i token message (market_of s.old)).1 ≡ word held 0 0) }
    ensures { Answers (snapshot_at i token message t (market_of s.old))
        (lent s.old out.old) (of_step result) (lent s.new out.new) }
{
    room(s)?;
    let led = store::conns::any_in_line(s);
    store::conns::hold_item(s, i, Item::Snapshot(token, message));
    if led {
        return Ok(complete_snapshot(s, out, i, t));
    }
    Ok(Step::Apply(moves::entering::take_over(s, out, 0, i, t)))
}

// A snapshot of a token by a connection.
pub fn snapshot(
    s: &mut [u64],
    out: &mut [u64],
    conn: u64,
    token: u64,
    message: u64,
    t: u64,
) -> Result<Step, Refusal>
    requires { (Roomy s.old out.old) × (token ≤ 1) }
    ensures { Answers (Rules.snapshot (line_of conn (market_of s.old)) token message t (market_of s.old)
        (line_for conn (market_of s.old)))
        (lent s.old out.old) (of_step result) (lent s.new out.new) }
{
    let i = store::conns::find(s, conn);
    if store::conns::count(s) <= i {
        return Ok(Step::Ignored);
    }
    let stepped = step_of(s, i, token);
    let step = stepped.step?;
    match step {
        Step::Apply(_) => Ok(due_snapshot(s, out, i, stepped.line, message, t)),
        Step::Held => held_snapshot(s, out, i, token, message, t),
        Step::Duplicate | Step::Ignored | Step::Diverged | Step::Failed => Ok(step),
    }
}
