// The eight calls on a sound store, with every refusal but 1. Who lends a store that may be unsound uses crate calls.
#![tactic(auto)]

ghost use Rattle.std.specs.Prelude.{◌≡◌, true, false, ◌/◌, MatchResult};
ghost use Rattle.rules.specs.Refusals as Rules;
ghost use Rattle.rules.specs.Refusals.{Subscribe, Snapshot, BookEvent, Print, Drop, Promote, Reset, Tick};
ghost use Rattle.rules.specs.Answers.{of_step, of_changed, of_lost, of_ticked};
ghost use Rattle.store.specs.Store.{market_of, Sound};
ghost use Rattle.market.specs.Lent.{lent, alone};
ghost use Rattle.market_tick.specs.Turns.{lent_all};
ghost use Rattle.steps.specs.Steps.{Steps, records, report_room};

use rules::{EventKey, Lost, Refusal, Step, Ticked};

// Whether a list of so many words takes as many records as a call may put out.
fn room(s: &[u64], len: usize) -> Result<(), Refusal>
    requires { Sound s.now }
    ensures { MatchResult result
        (λ done. Rules.short (len / 7) (market_of s.now) ≡ false)
        (λ e. (e ≡ Refusal.Room) × (Rules.short (len / 7) (market_of s.now) ≡ true)) }
{
    let limits = store::entries::limits(s);
    if (len as u64) / 7 < limits.L * (2 * limits.H + 8) + 1 {
        return Err(Refusal::Room);
    }
    Ok(())
}

// A connection subscribes: its delivered counts go, and its line becomes Waiting, empty, since t, with this limit, 1 to H.
pub fn subscribe(s: &mut [u64], conn: u64, limit: u64, t: u64) -> Result<(), Refusal>
    requires { Sound s.old }
    ensures { Steps (Subscribe conn limit t) (alone s.old) (of_changed result) (alone s.new) }
{
    market::changes::subscribe(s, conn, limit, t)
}

// A connection sends a snapshot of a token, 0 or 1.
pub fn snapshot(
    s: &mut [u64],
    out: &mut [u64],
    conn: u64,
    token: u64,
    message: u64,
    t: u64,
) -> Result<Step, Refusal>
    requires { Sound s.old }
    ensures { Steps (Snapshot conn token message t (records out.old))
        (lent s.old out.old) (of_step result) (lent s.new out.new) }
{
    if 1 < token {
        return Err(Refusal::Token);
    }
    room(s, out.len())?;
    market_snapshots::snapshot(s, out, conn, token, message, t)
}

// A connection sends a book event.
pub fn book_event(
    s: &mut [u64],
    out: &mut [u64],
    conn: u64,
    key: EventKey,
    message: u64,
    t: u64,
) -> Result<Step, Refusal>
    requires { Sound s.old }
    ensures { Steps (BookEvent conn key message t (records out.old)) (lent s.old out.old) (of_step result) (lent s.new out.new) }
{
    room(s, out.len())?;
    market_events::book_event(s, out, conn, key, message, t)
}

// A connection sends a print: any message that is neither a snapshot nor a book event.
pub fn other(
    s: &mut [u64],
    out: &mut [u64],
    conn: u64,
    key: EventKey,
    message: u64,
    t: u64,
) -> Result<Step, Refusal>
    requires { Sound s.old }
    ensures { Steps (Print conn key message t (records out.old))
        (lent s.old out.old) (of_step result) (lent s.new out.new) }
{
    room(s, out.len())?;
    market_prints::other(s, out, conn, key, message, t)
}

// A connection is gone: its line goes, and if it was in line the others are promoted.
pub fn drop_conn(s: &mut [u64], out: &mut [u64], conn: u64, t: u64) -> Result<Lost, Refusal>
    requires { Sound s.old }
    ensures { Steps (Drop conn t (records out.old)) (lent s.old out.old) (of_lost result) (lent s.new out.new) }
{
    room(s, out.len())?;
    Ok(market::promoting::drop_conn(s, out, conn, t))
}

// Where nobody is in line, the line with the best claim takes over.
pub fn promote(s: &mut [u64], out: &mut [u64], t: u64) -> Result<Lost, Refusal>
    requires { Sound s.old }
    ensures { Steps (Promote t (records out.old)) (lent s.old out.old) (of_lost result) (lent s.new out.new) }
{
    room(s, out.len())?;
    Ok(market::promoting::promote(s, out, t))
}

// Empties the log; every line but a Failed one becomes Pending, empty, since t.
pub fn reset(s: &mut [u64], t: u64) -> Result<(), Refusal>
    requires { Sound s.old }
    ensures { Steps (Reset t) (alone s.old) (of_changed result) (alone s.new) }
{
    market::changes::reset(s, t);
    Ok(())
}

// Whether the view answers are not one for each line, or one is neither 0 nor 1.
fn bad_answers(s: &[u64], answers: &[u64]) -> bool
    requires { Sound s.now }
    ensures { result ≡ Rules.bad_answers answers.now (market_of s.now) }
{
    answers.len() != store::conns::count(s) || answers.iter().any(|answer| 1 < *answer)
}

// Time passes: old entries and print keys go, and each line has its turn.
pub fn tick(
    s: &mut [u64],
    out: &mut [u64],
    reports: &mut [u64],
    answers: &[u64],
    t: u64,
) -> Result<Ticked, Refusal>
    requires { Sound s.old }
    ensures { Steps (Tick answers.now t (records out.old) (report_room reports.old))
        (lent_all s.old out.old reports.old) (of_ticked result)
        (lent_all s.new out.new reports.new) }
{
    if bad_answers(s, answers) {
        return Err(Refusal::ViewAnswers);
    }
    room(s, out.len())?;
    let lines = store::entries::limits(s).L as usize;
    if reports.len() / 3 < lines {
        return Err(Refusal::Room);
    }
    Ok(market_tick::tick(s, out, reports, answers, t))
}
