// Subscribe and reset, on a sound store.
ghost use Rattle.rules.specs.Calls as Rules;
ghost use Rattle.rules.specs.Calls.{just, done};
ghost use Rattle.rules.specs.Answers.{of_changed};
ghost use Rattle.store.specs.Store.{market_of, Sound};
ghost use Rattle.market.specs.Lent.{alone, Answers};

use rules::Refusal;

// The connection's delivered counts go, and its line becomes Waiting, empty, since t, with this limit.
pub fn subscribe(s: &mut [u64], conn: u64, limit: u64, t: u64) -> Result<(), Refusal>
    requires { Sound s.old }
    ensures { Answers (Rules.subscribe conn limit t (market_of s.old))
        (alone s.old) (of_changed result) (alone s.new) }
{
    let limits = store::entries::limits(s);
    let fits = (1 <= limit) & (limit <= limits.H);
    if !fits {
        return Err(Refusal::LineLimit);
    }
    let lines = store::conns::count(s);
    let i = store::conns::find(s, conn);
    let full = (lines <= i) & (limits.L <= lines as u64);
    if full {
        return Err(Refusal::Lines);
    }
    store::tables::remove_counts(s, conn);
    line_list::subscribe(s, conn, limit, t);
    Ok(())
}

// Empties the log; every line but a Failed one becomes Pending, empty, since t.
pub fn reset(s: &mut [u64], t: u64)
    requires { Sound s.old }
    ensures { Answers (just done (Rules.reset t (market_of s.old))) (alone s.old) (of_changed (Ok result)) (alone s.new) }
{
    store::entries::clear_log(s);
    line_list::reset(s, t);
}
