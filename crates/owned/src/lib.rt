// No public calls: what a host that keeps its store to itself may use in their place. They ask for a sound store and do not test it, so a
// host may call them only on words that setup made and that nobody but these functions has written since. Each leaves a sound store,
// so that promise keeps itself. Slices, pointers and codes are as in crate exports.
#![tactic(auto)]

ghost use Rattle.std.specs.Prelude.{◌≡◌};
ghost use Rattle.rules.specs.Quantities.{key};
ghost use Rattle.rules.specs.Refusals as Rules;
ghost use Rattle.rules.specs.Refusals.{Subscribe, Snapshot, BookEvent, Print, Drop, Promote, Reset, Tick};
ghost use Rattle.store.specs.Store.{market_of, Sound};
ghost use Rattle.market.specs.Lent.{lent, alone};
ghost use Rattle.market_tick.specs.Turns.{lent_all};
ghost use Rattle.steps.specs.Steps.{Steps, records, report_room};
ghost use Rattle.codes.specs.Told.{Tells, Telling};
ghost use Rattle.batch.specs.Batch.{Runs, lists};
ghost use Rattle.batch.specs.Told.{TellsBatched};

use rules::EventKey;

#[unsafe(no_mangle)]
pub extern "C" fn owned_subscribe(
    s: &mut [u64],
    conn: u64,
    limit: u64,
    t: u64,
    count: &mut u64,
) -> u64
    requires { Sound s.old }
    ensures { Telling (λ a. Tells a result count.new 0)
        (λ a. Steps (Subscribe conn limit t) (alone s.old) a (alone s.new)) }
{
    codes::of_changed(steps::subscribe(s, conn, limit, t)).tell(count)
}

#[unsafe(no_mangle)]
pub extern "C" fn owned_snapshot(
    s: &mut [u64],
    out: &mut [u64],
    conn: u64,
    token: u64,
    message: u64,
    t: u64,
    count: &mut u64,
) -> u64
    requires { Sound s.old }
    ensures { Telling (λ a. Tells a result count.new 0)
        (λ a. Steps (Snapshot conn token message t (records out.old))
        (lent s.old out.old) a (lent s.new out.new)) }
{
    codes::of_step(steps::snapshot(s, out, conn, token, message, t)).tell(count)
}

#[unsafe(no_mangle)]
pub extern "C" fn owned_book_event(
    s: &mut [u64],
    out: &mut [u64],
    conn: u64,
    key0: u64,
    key1: u64,
    message: u64,
    t: u64,
    count: &mut u64,
) -> u64
    requires { Sound s.old }
    ensures { Telling (λ a. Tells a result count.new 0)
        (λ a. Steps (BookEvent conn (key key0 key1) message t (records out.old))
        (lent s.old out.old) a (lent s.new out.new)) }
{
    codes::of_step(steps::book_event(s, out, conn, EventKey(key0, key1), message, t)).tell(count)
}

#[unsafe(no_mangle)]
pub extern "C" fn owned_print(
    s: &mut [u64],
    out: &mut [u64],
    conn: u64,
    key0: u64,
    key1: u64,
    message: u64,
    t: u64,
    count: &mut u64,
) -> u64
    requires { Sound s.old }
    ensures { Telling (λ a. Tells a result count.new 0)
        (λ a. Steps (Print conn (key key0 key1) message t (records out.old))
        (lent s.old out.old) a (lent s.new out.new)) }
{
    codes::of_step(steps::other(s, out, conn, EventKey(key0, key1), message, t)).tell(count)
}

#[unsafe(no_mangle)]
pub extern "C" fn owned_drop(
    s: &mut [u64],
    out: &mut [u64],
    conn: u64,
    t: u64,
    count: &mut u64,
) -> u64
    requires { Sound s.old }
    ensures { Telling (λ a. Tells a result count.new 0)
        (λ a. Steps (Drop conn t (records out.old))
        (lent s.old out.old) a (lent s.new out.new)) }
{
    codes::of_lost(steps::drop_conn(s, out, conn, t)).tell(count)
}

#[unsafe(no_mangle)]
pub extern "C" fn owned_promote(s: &mut [u64], out: &mut [u64], t: u64, count: &mut u64) -> u64
    requires { Sound s.old }
    ensures { Telling (λ a. Tells a result count.new 0)
        (λ a. Steps (Promote t (records out.old))
        (lent s.old out.old) a (lent s.new out.new)) }
{
    codes::of_lost(steps::promote(s, out, t)).tell(count)
}

#[unsafe(no_mangle)]
pub extern "C" fn owned_reset(s: &mut [u64], t: u64, count: &mut u64) -> u64
    requires { Sound s.old }
    ensures { Telling (λ a. Tells a result count.new 0)
        (λ a. Steps (Reset t) (alone s.old) a (alone s.new)) }
{
    codes::of_changed(steps::reset(s, t)).tell(count)
}

#[unsafe(no_mangle)]
pub extern "C" fn owned_tick(
    s: &mut [u64],
    out: &mut [u64],
    reports: &mut [u64],
    answers: &[u64],
    t: u64,
    count: &mut u64,
    reported: &mut u64,
) -> u64
    requires { Sound s.old }
    ensures { Telling (λ a. Tells a result count.new reported.new)
        (λ a. Steps (Tick answers.now t (records out.old) (report_room reports.old))
        (lent_all s.old out.old reports.old)
        a (lent_all s.new out.new reports.new)) }
{
    let told = codes::of_ticked(steps::tick(s, out, reports, answers, t));
    *reported = told.reports;
    told.tell(count)
}

#[unsafe(no_mangle)]
pub extern "C" fn owned_batch(
    s: &mut [u64],
    out: &mut [u64],
    reports: &mut [u64],
    answers: &mut [u64],
    calls: &[u64],
    done: &mut u64,
    count: &mut u64,
    reported: &mut u64,
) -> u64
    requires { Sound s.old }
    ensures { Telling (λ a. TellsBatched a result done.new count.new reported.new)
        (λ a. Runs calls.now
        (lists s.old out.old reports.old answers.old)
        a (lists s.new out.new reports.new answers.new)) }
{
    let told = batch::of_batched(Ok(batch::run(s, out, reports, answers, calls)));
    *done = told.calls;
    *count = told.records;
    *reported = told.reports;
    told.code
}

#[unsafe(no_mangle)]
pub extern "C" fn owned_in_line(s: &[u64], conn: u64) -> bool
    requires { Sound s.now }
    ensures { result ≡ Rules.in_line conn (market_of s.now) }
{
    market::asking::in_line(s, conn)
}

#[unsafe(no_mangle)]
pub extern "C" fn owned_any_in_line(s: &[u64]) -> bool
    requires { Sound s.now }
    ensures { result ≡ Rules.any_in_line (market_of s.now) }
{
    store::conns::any_in_line(s)
}

#[unsafe(no_mangle)]
pub extern "C" fn owned_servable(s: &[u64]) -> bool
    requires { Sound s.now }
    ensures { result ≡ Rules.servable (market_of s.now) }
{
    market::asking::servable(s)
}
