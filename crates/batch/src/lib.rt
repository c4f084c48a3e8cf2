// Many calls at once: a list of calls of eight words each, done one after the other on a store that is tested once.
#![tactic(auto)]

ghost use Rattle.std.specs.Prelude.{◌≡◌, [], ◌∷◌, ◌+◌, ◌*◌, ◌≤◌, Ok, length, get_or, take};
ghost use Rattle.rules.specs.Answers.{of_ticked};
ghost use Rattle.store.specs.Store.{Sound};
ghost use Rattle.output.specs.Output.{over_at};
ghost use Rattle.market_tick.specs.Turns.{lent_all};
ghost use Rattle.batch.specs.Batch.{MeetsBatch, Runs, bits, lists, of_batched};
ghost use Rattle.batch.specs.Told.{TellsBatched, code_of_stop};
ghost use Rattle.batch.specs.Turn.{Calls, Does, Reasons, Turns, TurnRoom, did_so};

use codes::Told;
use rules::{EventKey, Refusal, Ticked};

// Why a list of calls ended.
#[derive(Clone, Copy, Debug, PartialEq, Eq)]
pub enum Stop {
    // Every whole call of the list was done.
    AllDone,
    // The next call needs more room for records or reports than is left.
    NoRoom,
    // The next eight words are no call.
    NoCall,
    // There is no room for another answer.
    NoAnswers,
}

// How many calls were done, how many records and reports they put out, and why the list ended.
#[derive(Clone, Copy, Debug, PartialEq, Eq)]
pub struct Batched {
    pub calls: usize,
    pub records: usize,
    pub reports: usize,
    pub stop: Stop,
}

// The same as four numbers: code 0 is a refusal, and the count of calls its number; 1 all done, 11 no room for the next call, 12 no
// call, 13 no room for another answer.
#[derive(Clone, Copy, Debug, PartialEq, Eq)]
pub struct Numbers {
    pub code: u64,
    pub calls: u64,
    pub records: u64,
    pub reports: u64,
}

// What a list under way has done so far.
#[derive(Clone, Copy, Debug, PartialEq, Eq)]
pub struct Counts {
    pub calls: usize,
    pub records: usize,
    pub reports: usize,
}

// The lowest n binary digits of x, lowest first.
fn digits(n: usize, x: u64) -> [u64; 16]
    requires { n ≤ 16 }
    ensures { (length result ≡ 16) × (take n result ≡ bits n x) }
{
    let mut row = [0; 16];
    let mut rest = x;
    for i in 0..n {
        row[i] = rest % 2;
        rest /= 2;
    }
    row
}

// Call 8, a tick.
fn tick(s: &mut [u64], out: &mut [u64], reports: &mut [u64], w: &[u64]) -> Result<Ticked, Refusal>
    requires { (Sound s.old) × ((length w.now ≡ 8) × (get_or w.now 0 0 ≡ 8)) }
    ensures { Calls w.now
        (lent_all s.old out.old reports.old) (of_ticked result)
        (lent_all s.new out.new reports.new) }
{
    let lines = store::conns::count(s);
    let views = digits(lines, w[7]);
    steps::tick(s, out, reports, &views[..lines], w[6])
}

// The call of eight words. Words that are no call end a list as a call without room does.
fn call(s: &mut [u64], out: &mut [u64], reports: &mut [u64], w: &[u64]) -> Told
    requires { (Sound s.old) × (length w.now ≡ 8) }
    ensures { Does w.now
        (lent_all s.old out.old reports.old) result
        (lent_all s.new out.new reports.new) }
{
    let (conn, message, t) = (w[1], w[5], w[6]);
    let key = EventKey(w[3], w[4]);
    match w[0] {
        1 => codes::of_changed(steps::subscribe(s, conn, w[2], t)),
        2 => codes::of_step(steps::snapshot(s, out, conn, w[2], message, t)),
        3 => codes::of_step(steps::book_event(s, out, conn, key, message, t)),
        4 => codes::of_step(steps::other(s, out, conn, key, message, t)),
        5 => codes::of_lost(steps::drop_conn(s, out, conn, t)),
        6 => codes::of_lost(steps::promote(s, out, t)),
        7 => codes::of_changed(steps::reset(s, t)),
        8 => codes::of_ticked(tick(s, out, reports, w)),
        _ => codes::of_changed(Err(Refusal::Room)),
    }
}

// Writes an answer behind the first i.
fn put_answer(answers: &mut [u64], i: usize, a: Told)
    requires { 3 * i + 3 ≤ length answers.old }
    ensures { answers.new ≡ over_at (3 * i) (a.code ∷ a.count ∷ a.reports ∷ []) answers.old }
{
    answers[3 * i..3 * i + 3].copy_from_slice(&[a.code, a.count, a.reports]);
}

// One call more, on what is left of the lists; None where it has no room, and is not done.
fn turn(
    s: &mut [u64],
    out: &mut [u64],
    reports: &mut [u64],
    answers: &mut [u64],
    w: &[u64],
    k: Counts,
) -> Option<Counts>
    requires { TurnRoom w.now (lists s.old out.old reports.old answers.old) k }
    ensures { Turns w.now
        (lists s.old out.old reports.old answers.old) k
        (lists s.new out.new reports.new answers.new) result }
{
    let told = call(
        s,
        &mut out[7 * k.records..],
        &mut reports[3 * k.reports..],
        w,
    );
    if told.code == 0 && told.count == Refusal::Room.number() {
        return None;
    }
    put_answer(answers, k.calls, told);
    let records = if told.code == 0 {
        0
    } else {
        told.count as usize
    };
    Some(Counts {
        calls: k.calls + 1,
        records: k.records + records,
        reports: k.reports + told.reports as usize,
    })
}

// Why a call of this number is not done, where there is room for its answer.
fn reason(n: u64) -> Stop
    ensures { Reasons n result }
{
    match n {
        1..=8 => Stop::NoRoom,
        _ => Stop::NoCall,
    }
}

// What a list answers that ends here.
fn ended(k: Counts, stop: Stop) -> Batched
    ensures { of_batched (Ok result) ≡ did_so k stop }
{
    Batched {
        calls: k.calls,
        records: k.records,
        reports: k.reports,
        stop,
    }
}

// Does the calls of a sound store, one after the other, until one is not done.
pub fn run(
    s: &mut [u64],
    out: &mut [u64],
    reports: &mut [u64],
    answers: &mut [u64],
    calls: &[u64],
) -> Batched
    requires { Sound s.old }
    ensures { Runs calls.now
        (lists s.old out.old reports.old answers.old) (of_batched (Ok result))
        (lists s.new out.new reports.new answers.new) }
{
    let room = answers.len() / 3;
    let mut k = Counts {
        calls: 0,
        records: 0,
        reports: 0,
    };
    for i in 0..calls.len() / 8 {
        if room <= i {
            return ended(k, Stop::NoAnswers);
        }
        let w = &calls[8 * i..8 * i + 8];
        match turn(s, out, reports, answers, w, k) {
            Some(next) => k = next,
            None => return ended(k, reason(w[0])),
        }
    }
    ended(k, Stop::AllDone)
}

// Does the calls, on any words.
pub fn batch(
    s: &mut [u64],
    out: &mut [u64],
    reports: &mut [u64],
    answers: &mut [u64],
    calls: &[u64],
) -> Result<Batched, Refusal>
    ensures { MeetsBatch calls.now
        (lists s.old out.old reports.old answers.old) (of_batched result)
        (lists s.new out.new reports.new answers.new) }
{
    sound::check(s)?;
    Ok(run(s, out, reports, answers, calls))
}

fn code_of_stop(stop: Stop) -> u64
    ensures { result ≡ code_of_stop stop }
{
    match stop {
        Stop::AllDone => 1,
        Stop::NoRoom => 11,
        Stop::NoCall => 12,
        Stop::NoAnswers => 13,
    }
}

pub fn of_batched(a: Result<Batched, Refusal>) -> Numbers
    ensures { TellsBatched (of_batched a) result.code result.calls result.records result.reports }
{
    match a {
        Ok(done) => Numbers {
            code: code_of_stop(done.stop),
            calls: done.calls as u64,
            records: done.records as u64,
            reports: done.reports as u64,
        },
        Err(refusal) => Numbers {
            code: 0,
            calls: refusal.number(),
            records: 0,
            reports: 0,
        },
    }
}
