// The moves that change the list of lines of a store.
#![tactic(auto)]

ghost use Rattle.std.specs.Prelude.{◌≡◌, false, not, ◌&&◌, ◌<◌, leb, eqb, length};
ghost use Rattle.rules.specs.Lists.{keep, any, index};
ghost use Rattle.rules.specs.Lines as Rules;
ghost use Rattle.rules.specs.Lines.{conn_at, with_lines, subscribed};
ghost use Rattle.rules.specs.Calls.{pending_anew, each_line};
ghost use Rattle.rules.specs.Tick.{out_of_line};
ghost use Rattle.words.specs.Words.{Says};
ghost use Rattle.store.specs.Store.{line_count, market_of, Sound};
ghost use Rattle.store.specs.Moves.{Moved};
ghost use Rattle.store.specs.ConnMoves.{Lined};
ghost use Rattle.line_list.specs.Change.{Makes};

use lines::Line;

// Every line changes, by value.
fn change_each<F: Fn(Line) -> Line>(s: &mut [u64], change: F)
    requires lined { Lined s.old }
    requires callable { F.IsAlwaysCallable change }
    ensures { (g : Rules.Line → Rules.Line) → Makes (F.post change) g
        → Moved s.old s.new (each_line g (market_of s.old)) }
{
    for i in 0..store::conns::count(s) {
        let line = store::conns::line_at(s, i);
        store::conns::set_line(s, i, change(line));
    }
}

// Every line but a Failed one becomes Pending, empty, since t; held prints stay.
pub fn reset(s: &mut [u64], t: u64)
    requires { Lined s.old }
    ensures { Moved s.old s.new (each_line (pending_anew t) (market_of s.old)) }
{
    change_each(s, |line| line.reset(t));
}

// Every line in line becomes Pending, empty, since t.
pub fn out_of_line(s: &mut [u64], t: u64)
    requires { Lined s.old }
    ensures { Moved s.old s.new (each_line (out_of_line t) (market_of s.old)) }
{
    change_each(s, |line| line.out_of_line(t));
}

// The connection's line goes.
pub fn remove(s: &mut [u64], conn: u64)
    requires { Sound s.old }
    ensures { Moved s.old s.new
        (with_lines (keep (λ c. not (eqb c.conn conn)) (market_of s.old).lines) (market_of s.old)) }
{
    let i = store::conns::find(s, conn);
    if i < store::conns::count(s) {
        store::areas::take_out(s, i);
    }
}

// The place of the first line whose connection is not lower; the count of lines if there is none.
fn place_of(s: &[u64], conn: u64) -> usize
    requires { Lined s.now }
    ensures { result ≡ index (λ c. leb conn c.conn) (market_of s.now).lines }
{
    let n = store::conns::count(s);
    for i in 0..n {
        if conn <= store::conns::conn_at(s, i) {
            return i;
        }
    }
    n
}

// Whether the i-th line is there and is this connection's.
fn stands_at(s: &[u64], i: usize, conn: u64) -> bool
    requires { Lined s.now }
    ensures { Says result ((i < line_count s.now) × ((conn_at i (market_of s.now)).conn ≡ conn)) }
{
    i < store::conns::count(s) && store::conns::conn_at(s, i) == conn
}

// The connection's line becomes Waiting, empty, since t, with this limit; one that has no line gets one in its place by connection.
pub fn subscribe(s: &mut [u64], conn: u64, limit: u64, t: u64)
    requires sound { Sound s.old }
    requires s_value { not (any (λ c. eqb c.conn conn) (market_of s.old).lines)
        && leb (market_of s.old).limits.L (length (market_of s.old).lines) ≡ false }
    ensures { Moved s.old s.new
        (with_lines (subscribed conn limit t (market_of s.old).lines) (market_of s.old)) }
{
    let i = place_of(s, conn);
    if stands_at(s, i, conn) {
        store::conns::put_waiting(s, i, conn, limit, t);
    } else {
        store::areas::insert(s, i, conn, limit, t);
    }
}
