// The tick, on a sound store.
#![tactic(auto)]

ghost use Rattle.std.specs.Prelude.{◌≡◌, List, false, true, ℕ, ◌+◌, ◌*◌, ◌≤◌, ◌<◌, length};
ghost use Rattle.rules.specs.Lines.{Failed, conn_at, items_of};
ghost use Rattle.rules.specs.Entering.{sweep, try_line_up};
ghost use Rattle.rules.specs.Tick as Rules;
ghost use Rattle.rules.specs.Tick.{rebuild_from, quiet_line_up};
ghost use Rattle.rules.specs.Answers.{of_ticked};
ghost use Rattle.lines.specs.Line.{Stands};
ghost use Rattle.lines.specs.Steps.{aged};
ghost use Rattle.store.specs.Store.{limits_of, line_count, market_of, Sound};
ghost use Rattle.store.specs.ConnMoves.{NotFailed};
ghost use Rattle.moves.specs.Does.{Does, Ready};
ghost use Rattle.market.specs.Lent.{Answers, Roomy};
ghost use Rattle.market_tick.specs.Turns.{Turns, TurnRoom, Pends, AlignedReport, aligned_by, fits_quietly, quietly_of, following_way, way_of, TurnsEnd, lent_all};

use lines::{Aging, Line};
use rules::{Expired, Ticked};

// A tick under way: how many records and reports there are, and whether it has stopped.
#[derive(Clone, Copy, Debug, PartialEq, Eq)]
pub struct Turned {
    pub n: usize,
    pub m: usize,
    pub stopped: bool,
}

// How a line may line up in its turn: by its events, quietly, or not. Three ways, none of which has a value: an Option of two says it no plainer.
#[derive(Clone, Copy, Debug, PartialEq, Eq)]
pub enum Way {
    Aligns,
    Quietly,
    Nowhere,
}

// The i-th line becomes this one, which has failed; its held prints go, and it is reported.
fn fails(s: &mut [u64], reports: &mut [u64], k: Turned, i: usize, line: Line) -> Turned
    requires sound { (Sound s.old) × ((i < line_count s.old) × ((NotFailed s.old i) × (3 * k.m + 3 ≤ length reports.old))) }
    requires stands { Stands line Failed }
    ensures { (v : List ℕ) → Turns (Rules.fails i) s.old v reports.old k s.new v reports.new result }
{
    let conn = store::conns::conn_at(s, i);
    store::conns::drop_prints(s, i);
    store::conns::set_line(s, i, line);
    let m = output::put_report(reports, k.m, Expired::Failed(conn));
    Turned {
        n: k.n,
        m,
        stopped: false,
    }
}

// A line is reported Aligned if there are more records now: n.
fn aligned(reports: &mut [u64], k: Turned, conn: u64, n: usize) -> Turned
    requires { (3 * k.m + 3 ≤ length reports.old) × (k.n ≤ n) }
    ensures { AlignedReport conn n reports.old k reports.new result }
{
    if k.n < n {
        let m = output::put_report(reports, k.m, Expired::Aligned(conn, n - k.n));
        return Turned {
            n,
            m,
            stopped: false,
        };
    }
    Turned {
        n,
        m: k.m,
        stopped: false,
    }
}

// The i-th line takes over an emptied log, the others leave line; the tick stops.
fn rebuild_from(
    s: &mut [u64],
    out: &mut [u64],
    reports: &mut [u64],
    k: Turned,
    i: usize,
    t: u64,
) -> Turned
    requires { (TurnRoom s.old out.old reports.old k i) × (Pends s.old i) }
    ensures { Turns (rebuild_from i (items_of (conn_at i (market_of s.old)).line) t)
        s.old out.old reports.old k s.new out.new reports.new result }
{
    let conn = store::conns::conn_at(s, i);
    store::entries::clear_log(s);
    line_list::out_of_line(s, t);
    let taken = moves::entering::take_over(s, out, k.n, i, t);
    let n = moves::lining_up::align_pending(s, out, taken, t);
    let m = output::put_report(reports, k.m, Expired::Rebuild(conn, n - k.n));
    Turned {
        n,
        m,
        stopped: true,
    }
}

// Time passes for the i-th line: it stays, it fails, or the market is rebuilt from it.
fn ages(s: &mut [u64], out: &mut [u64], reports: &mut [u64], k: Turned, i: usize, t: u64) -> Turned
    requires { TurnRoom s.old out.old reports.old k i }
    ensures { Turns (λ w. aged i t w (conn_at i (market_of s.old)).line)
        s.old out.old reports.old k s.new out.new reports.new result }
{
    let base = store::entries::base(s);
    let aged = store::conns::line_at(s, i).time(base, t);
    match aged.aging {
        Aging::Stays => Turned {
            n: k.n,
            m: k.m,
            stopped: false,
        },
        Aging::Fails => fails(s, reports, k, i, aged.line),
        Aging::Rebuilds => rebuild_from(s, out, reports, k, i, t),
    }
}

// Whether the i-th line holds no event, or lines up quietly.
fn fits_quietly(s: &[u64], i: usize) -> bool
    requires { (Sound s.now) × (i < line_count s.now) }
    ensures { result ≡ fits_quietly (conn_at i (market_of s.now)).line (market_of s.now) }
{
    moves::reads::events_held(s, i) == 0 || moves::reads::alignment(s, i, true).is_some()
}

// Whether the i-th line may line up quietly at t.
fn quietly(s: &[u64], i: usize, same: bool, t: u64) -> bool
    requires { (Sound s.now) × (i < line_count s.now) }
    ensures { result ≡ quietly_of (conn_at i (market_of s.now)).line same t (market_of s.now) }
{
    event_log::quiet(store::entries::head(s).last, t, true)
        && store::conns::line_at(s, i).quiet(t)
        && same
        && fits_quietly(s, i)
}

// The i-th line lines up quietly; without events it enters at the end.
fn quiet_line_up(s: &mut [u64], out: &mut [u64], n: usize, i: usize, t: u64) -> usize
    requires { (Ready s.old out.old n) × ((i < line_count s.old) × (NotFailed s.old i)) }
    ensures { Does (quiet_line_up i t (items_of (conn_at i (market_of s.old)).line))
        s.old out.old n s.new out.new result }
{
    if moves::reads::events_held(s, i) == 0 {
        let end = store::entries::end(s);
        return moves::entering::enter(s, out, n, i, Line::lined_up(end));
    }
    moves::lining_up::try_align(s, out, n, i, t, true)
}

// The i-th line lines up, if it can, then the others do.
fn align(s: &mut [u64], out: &mut [u64], reports: &mut [u64], k: Turned, i: usize, t: u64) -> Turned
    requires { TurnRoom s.old out.old reports.old k i }
    ensures { Turns (aligned_by i (λ w. sweep t (try_line_up false i t w)))
        s.old out.old reports.old k s.new out.new reports.new result }
{
    let conn = store::conns::conn_at(s, i);
    let lined = moves::lining_up::try_align(s, out, k.n, i, t, false);
    let n = moves::lining_up::align_pending(s, out, lined, t);
    aligned(reports, k, conn, n)
}

// The i-th line lines up quietly.
fn align_quietly(
    s: &mut [u64],
    out: &mut [u64],
    reports: &mut [u64],
    k: Turned,
    i: usize,
    t: u64,
) -> Turned
    requires { (TurnRoom s.old out.old reports.old k i) × (Pends s.old i) }
    ensures { Turns (aligned_by i (quiet_line_up i t (items_of (conn_at i (market_of s.old)).line)))
        s.old out.old reports.old k s.new out.new reports.new result }
{
    let conn = store::conns::conn_at(s, i);
    let n = quiet_line_up(s, out, k.n, i, t);
    aligned(reports, k, conn, n)
}

// How the i-th line, pending, may line up while another is in line and nothing was due.
fn following(s: &[u64], i: usize, same: bool, t: u64) -> Way
    requires { (Sound s.now) × (i < line_count s.now) }
    ensures { result ≡ following_way same t (market_of s.now) (conn_at i (market_of s.now)).line }
{
    if moves::reads::alignment(s, i, false).is_some() {
        Way::Aligns
    } else if quietly(s, i, same, t) {
        Way::Quietly
    } else {
        Way::Nowhere
    }
}

// How the i-th line may line up in its turn.
fn way_of(s: &[u64], i: usize, due: bool, same: bool, t: u64) -> Way
    requires { (Sound s.now) × (i < line_count s.now) }
    ensures { result ≡ way_of due same t (market_of s.now) (conn_at i (market_of s.now)).line }
{
    if due {
        return Way::Nowhere;
    }
    if store::conns::line_at(s, i).pending() && store::conns::any_in_line(s) {
        following(s, i, same, t)
    } else {
        Way::Nowhere
    }
}

// The i-th line's turn; due: some line was due a snapshot at the tick's start; same: its view answer is yes.
fn turn(
    s: &mut [u64],
    out: &mut [u64],
    reports: &mut [u64],
    k: Turned,
    i: usize,
    due: bool,
    same: bool,
    t: u64,
) -> Turned
    requires { TurnRoom s.old out.old reports.old k i }
    ensures { Turns (λ w. Rules.turn i due same t w (conn_at i (market_of s.old)).line)
        s.old out.old reports.old k s.new out.new reports.new result }
{
    match way_of(s, i, due, same, t) {
        Way::Aligns => align(s, out, reports, k, i, t),
        Way::Quietly => align_quietly(s, out, reports, k, i, t),
        Way::Nowhere => ages(s, out, reports, k, i, t),
    }
}

// The lines' turns, rising, until one stops the tick.
fn turns(
    s: &mut [u64],
    out: &mut [u64],
    reports: &mut [u64],
    answers: &[u64],
    due: bool,
    t: u64,
) -> Turned
    requires { (Ready s.old out.old 0) × ((3 * (limits_of s.old).L ≤ length reports.old) × (length answers.now ≡ line_count s.old)) }
    ensures { TurnsEnd due answers.now t
        s.old out.old reports.old s.new out.new reports.new result }
{
    let mut k = Turned {
        n: 0,
        m: 0,
        stopped: false,
    };
    for (i, answer) in answers.iter().enumerate() {
        k = turn(s, out, reports, k, i, due, *answer == 1, t);
        if k.stopped {
            break;
        }
    }
    k
}

// A tick: old log entries and print keys go, then each line has its turn.
pub fn tick(s: &mut [u64], out: &mut [u64], reports: &mut [u64], answers: &[u64], t: u64) -> Ticked
    requires { (Roomy s.old out.old) × ((3 * (limits_of s.old).L ≤ length reports.old) × (length answers.now ≡ line_count s.old)) }
    ensures { Answers (Rules.tick answers.now t (market_of s.old))
        (lent_all s.old out.old reports.old) (of_ticked (Ok result))
        (lent_all s.new out.new reports.new) }
{
    let due = store::conns::some_due(s);
    store::entries::prune(s, t);
    store::tables::expire(s, t);
    let k = turns(s, out, reports, answers, due, t);
    Ticked {
        reports: k.m,
        records: k.n,
    }
}
