// The calls for a host in C or Rust. A slice is a pointer and a length; the slices and pointers of one call may not overlap.
// A call answers a code, with its counts behind pointers: crate codes says what they mean. The contracts are those of the calls, of
// the answer that these numbers tell.
#![tactic(auto)]

ghost use Rattle.std.specs.Prelude.{◌≡◌};
ghost use Rattle.rules.specs.Quantities.{key};
ghost use Rattle.keys.specs.Keys.{key_of};
ghost use Rattle.rules.specs.Refusals as Rules;
ghost use Rattle.rules.specs.Refusals.{Subscribe, Snapshot, BookEvent, Print, Drop, Promote, Reset, Tick};
ghost use Rattle.market.specs.Lent.{lent, alone};
ghost use Rattle.market_tick.specs.Turns.{lent_all};
ghost use Rattle.steps.specs.Steps.{records, report_room};
ghost use Rattle.promise.specs.Meets.{Promise, of_call, of_setup, of_query, of_view, says, asks, views};
ghost use Rattle.codes.specs.Told.{Tells, TellsAsked, TellsViewed, Telling};
ghost use Rattle.batch.specs.Batch.{MeetsBatch, lists};
ghost use Rattle.batch.specs.Told.{TellsBatched};

use rules::{EventKey, Limits};

#[unsafe(no_mangle)]
pub extern "C" fn merge_setup(
    s: &mut [u64],
    lines: u64,
    held: u64,
    events: u64,
    keys: u64,
    pairs: u64,
    start: u64,
    count: &mut u64,
) -> u64
    ensures { Telling (λ a. Tells a result count.new 0)
        (λ a. Promise (of_setup (record { L = lines; H = held; G = events; C = keys; D = pairs }) start)
        (alone s.old) (says a) (alone s.new)) }
{
    let l = Limits {
        L: lines,
        H: held,
        G: events,
        C: keys,
        D: pairs,
    };
    codes::of_changed(setup::setup(s, l, start)).tell(count)
}

#[unsafe(no_mangle)]
pub extern "C" fn merge_subscribe(
    s: &mut [u64],
    conn: u64,
    limit: u64,
    t: u64,
    count: &mut u64,
) -> u64
    ensures { Telling (λ a. Tells a result count.new 0)
        (λ a. Promise (of_call (Subscribe conn limit t)) (alone s.old) (says a) (alone s.new)) }
{
    codes::of_changed(calls::subscribe(s, conn, limit, t)).tell(count)
}

#[unsafe(no_mangle)]
pub extern "C" fn merge_snapshot(
    s: &mut [u64],
    out: &mut [u64],
    conn: u64,
    token: u64,
    message: u64,
    t: u64,
    count: &mut u64,
) -> u64
    ensures { Telling (λ a. Tells a result count.new 0)
        (λ a. Promise (of_call (Snapshot conn token message t (records out.old)))
        (lent s.old out.old) (says a) (lent s.new out.new)) }
{
    codes::of_step(calls::snapshot(s, out, conn, token, message, t)).tell(count)
}

#[unsafe(no_mangle)]
pub extern "C" fn merge_book_event(
    s: &mut [u64],
    out: &mut [u64],
    conn: u64,
    key0: u64,
    key1: u64,
    message: u64,
    t: u64,
    count: &mut u64,
) -> u64
    ensures { Telling (λ a. Tells a result count.new 0)
        (λ a. Promise (of_call (BookEvent conn (key key0 key1) message t (records out.old)))
        (lent s.old out.old) (says a) (lent s.new out.new)) }
{
    codes::of_step(calls::book_event(s, out, conn, EventKey(key0, key1), message, t)).tell(count)
}

#[unsafe(no_mangle)]
pub extern "C" fn merge_print(
    s: &mut [u64],
    out: &mut [u64],
    conn: u64,
    key0: u64,
    key1: u64,
    message: u64,
    t: u64,
    count: &mut u64,
) -> u64
    ensures { Telling (λ a. Tells a result count.new 0)
        (λ a. Promise (of_call (Print conn (key key0 key1) message t (records out.old)))
        (lent s.old out.old) (says a) (lent s.new out.new)) }
{
    codes::of_step(calls::other(s, out, conn, EventKey(key0, key1), message, t)).tell(count)
}

#[unsafe(no_mangle)]
pub extern "C" fn merge_drop(
    s: &mut [u64],
    out: &mut [u64],
    conn: u64,
    t: u64,
    count: &mut u64,
) -> u64
    ensures { Telling (λ a. Tells a result count.new 0)
        (λ a. Promise (of_call (Drop conn t (records out.old)))
        (lent s.old out.old) (says a) (lent s.new out.new)) }
{
    codes::of_lost(calls::drop_conn(s, out, conn, t)).tell(count)
}

#[unsafe(no_mangle)]
pub extern "C" fn merge_promote(s: &mut [u64], out: &mut [u64], t: u64, count: &mut u64) -> u64
    ensures { Telling (λ a. Tells a result count.new 0)
        (λ a. Promise (of_call (Promote t (records out.old)))
        (lent s.old out.old) (says a) (lent s.new out.new)) }
{
    codes::of_lost(calls::promote(s, out, t)).tell(count)
}

#[unsafe(no_mangle)]
pub extern "C" fn merge_reset(s: &mut [u64], t: u64, count: &mut u64) -> u64
    ensures { Telling (λ a. Tells a result count.new 0)
        (λ a. Promise (of_call (Reset t)) (alone s.old) (says a) (alone s.new)) }
{
    codes::of_changed(calls::reset(s, t)).tell(count)
}

#[unsafe(no_mangle)]
pub extern "C" fn merge_tick(
    s: &mut [u64],
    out: &mut [u64],
    reports: &mut [u64],
    answers: &[u64],
    t: u64,
    count: &mut u64,
    reported: &mut u64,
) -> u64
    ensures { Telling (λ a. Tells a result count.new reported.new)
        (λ a. Promise (of_call (Tick answers.now t (records out.old) (report_room reports.old)))
        (lent_all s.old out.old reports.old)
        (says a) (lent_all s.new out.new reports.new)) }
{
    let told = codes::of_ticked(calls::tick(s, out, reports, answers, t));
    *reported = told.reports;
    told.tell(count)
}

// A list of calls; docs/LAYOUT.md has the words of a call and of an answer. The code tells why the list ended: 1 all done, 11 no room for
// the next call, 12 no call, 13 no room for another answer; with how many calls were done and how many records and reports they put
// out. 0 is a refusal, and `done` its number.
#[unsafe(no_mangle)]
pub extern "C" fn merge_batch(
    s: &mut [u64],
    out: &mut [u64],
    reports: &mut [u64],
    answers: &mut [u64],
    calls: &[u64],
    done: &mut u64,
    count: &mut u64,
    reported: &mut u64,
) -> u64
    ensures { Telling (λ a. TellsBatched a result done.new count.new reported.new)
        (λ a. MeetsBatch calls.now
        (lists s.old out.old reports.old answers.old)
        a (lists s.new out.new reports.new answers.new)) }
{
    let told = batch::of_batched(batch::batch(s, out, reports, answers, calls));
    *done = told.calls;
    *count = told.records;
    *reported = told.reports;
    told.code
}

#[unsafe(no_mangle)]
pub extern "C" fn merge_in_line(s: &[u64], conn: u64, count: &mut u64) -> u64
    ensures { Telling (λ a. TellsAsked a result count.new)
        (λ a. Promise (of_query (Rules.in_line conn)) (alone s.now) (asks a) (alone s.now)) }
{
    codes::of_asked(queries::in_line(s, conn)).tell(count)
}

#[unsafe(no_mangle)]
pub extern "C" fn merge_any_in_line(s: &[u64], count: &mut u64) -> u64
    ensures { Telling (λ a. TellsAsked a result count.new)
        (λ a. Promise (of_query Rules.any_in_line) (alone s.now) (asks a) (alone s.now)) }
{
    codes::of_asked(queries::any_in_line(s)).tell(count)
}

#[unsafe(no_mangle)]
pub extern "C" fn merge_servable(s: &[u64], count: &mut u64) -> u64
    ensures { Telling (λ a. TellsAsked a result count.new)
        (λ a. Promise (of_query Rules.servable) (alone s.now) (asks a) (alone s.now)) }
{
    codes::of_asked(queries::servable(s)).tell(count)
}

#[unsafe(no_mangle)]
pub extern "C" fn merge_view(s: &[u64], conn: u64, list: &mut [u64], count: &mut u64) -> u64
    ensures { Telling (λ a. TellsViewed a result count.new)
        (λ a. Promise (of_view conn) (lent s.now list.old) (views a) (lent s.now list.new)) }
{
    codes::of_viewed(queries::view(s, conn, list)).tell(count)
}

// The key of a message's bytes.
#[unsafe(no_mangle)]
pub extern "C" fn merge_key(bytes: &[u8], key0: &mut u64, key1: &mut u64)
    ensures { key key0.new key1.new ≡ key_of bytes.now }
{
    let key = keys::key_of(bytes);
    *key0 = key.0;
    *key1 = key.1;
}
