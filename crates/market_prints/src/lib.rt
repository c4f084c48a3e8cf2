// The print, on a sound store.
#![tactic(auto)]

ghost use Rattle.std.specs.Prelude.{◌≡◌, List, ℕ, ◌<◌, ◌≤◌};
ghost use Rattle.rules.specs.Quantities.{max_count};
ghost use Rattle.rules.specs.Lines.{line_of, conn_at};
ghost use Rattle.rules.specs.Calls as Rules;
ghost use Rattle.rules.specs.Answers.{of_step};
ghost use Rattle.store.specs.Store.{line_count, market_of, Sound};
ghost use Rattle.store.specs.Moves.{KeyFound};
ghost use Rattle.store.specs.ConnMoves.{NotFailed};
ghost use Rattle.market.specs.Lent.{lent, Answers, Roomy};
ghost use Rattle.market_prints.specs.Put.{put_print};

use lines::Line;
use rows::Place;
use rules::{Applied, EventKey, Kind, Refusal, Step};

// A print is held once for each line; one too many and the line fails.
fn hold(s: &mut [u64], i: usize, key: EventKey, message: u64) -> Step
    requires { (Sound s.old) × ((i < line_count s.old) × (NotFailed s.old i)) }
    ensures { (v : List ℕ) → Answers (Rules.hold_print i key message (market_of s.old))
        (lent s.old v) (of_step (Ok result)) (lent s.new v) }
{
    if store::conns::holds_print(s, i, key) {
        return Step::Held;
    }
    if store::conns::limit_at(s, i) <= store::conns::prints_held(s, i) {
        store::conns::drop_prints(s, i);
        store::conns::set_line(s, i, Line::Failed);
        return Step::Failed;
    }
    store::conns::hold_print(s, i, key, message);
    Step::Held
}

// A print by a line in line is put out: as many copies as were delivered more than applied.
fn put_print(
    s: &mut [u64],
    out: &mut [u64],
    conn: u64,
    key: EventKey,
    message: u64,
    delivered: u64,
    applied: u64,
    place: Place,
) -> Step
    requires roomy { (Roomy s.old out.old) × ((applied < delivered) × (delivered ≤ max_count)) }
    requires key_found { KeyFound s.old key place }
    ensures { Answers (put_print conn key message delivered applied (market_of s.old))
        (lent s.old out.old) (of_step (Ok result)) (lent s.new out.new) }
{
    store::tables::apply(s, key, delivered, place);
    let record = Applied {
        conn,
        kind: Kind::Print,
        number: 0,
        key,
        message,
        times: delivered - applied,
    };
    Step::Apply(output::put_record(out, 0, record))
}

// A print that is counted: the connection has delivered it so often, and so often it was applied.
fn counted(
    s: &mut [u64],
    out: &mut [u64],
    i: usize,
    conn: u64,
    key: EventKey,
    message: u64,
    delivered: u64,
    applied: u64,
    place: Place,
) -> Step
    requires roomy { (Roomy s.old out.old) × ((i < line_count s.old) × ((NotFailed s.old i) × (delivered ≤ max_count))) }
    requires key_found { KeyFound s.old key place }
    ensures { Answers (Rules.print_counted i conn key message delivered applied (market_of s.old)
        (conn_at i (market_of s.old)).line)
        (lent s.old out.old) (of_step (Ok result)) (lent s.new out.new) }
{
    if delivered <= applied {
        return Step::Duplicate;
    }
    if store::conns::line_at(s, i).in_line() {
        return put_print(s, out, conn, key, message, delivered, applied, place);
    }
    hold(s, i, key, message)
}

// A print of a connection that has not failed.
fn deliver(
    s: &mut [u64],
    out: &mut [u64],
    i: usize,
    conn: u64,
    key: EventKey,
    message: u64,
    t: u64,
) -> Result<Step, Refusal>
    requires { (Roomy s.old out.old) × ((i < line_count s.old) × ((NotFailed s.old i) × (i ≡ line_of conn (market_of s.old)))) }
    ensures { Answers (Rules.print conn key message t (market_of s.old))
        (lent s.old out.old) (of_step result) (lent s.new out.new) }
{
    let found = store::tables::find(s, key, conn);
    if store::tables::no_row(s, key, conn, found) {
        return Err(Refusal::NoRow);
    }
    let delivered = store::tables::delivered(s, key, conn, found);
    if prints::MAX_COUNT <= delivered {
        return Err(Refusal::CountFull);
    }
    let applied = store::tables::applied(s, key, found.key);
    let place = store::tables::deliver(s, key, conn, t, found);
    Ok(counted(s, out, i, conn, key, message, delivered + 1, applied, place))
}

// A print by a connection.
pub fn other(
    s: &mut [u64],
    out: &mut [u64],
    conn: u64,
    key: EventKey,
    message: u64,
    t: u64,
) -> Result<Step, Refusal>
    requires { Roomy s.old out.old }
    ensures { Answers (Rules.print conn key message t (market_of s.old))
        (lent s.old out.old) (of_step result) (lent s.new out.new) }
{
    let i = store::conns::find(s, conn);
    if store::conns::count(s) <= i || store::conns::line_at(s, i).failed() {
        return Ok(Step::Ignored);
    }
    deliver(s, out, i, conn, key, message, t)
}
