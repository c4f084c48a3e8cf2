// What puts records out on the way into line.
ghost use Rattle.std.specs.Prelude.{◌≡◌, List, [], ◌∷◌, Bool, ℕ, ◌+◌, ◌*◌, ◌≤◌, ◌<◌, length};
ghost use Rattle.rules.specs.Lines as Rules;
ghost use Rattle.rules.specs.Lines.{conn_at, items_of};
ghost use Rattle.rules.specs.Entering.{push_out, put_items, release, enter, take_over};
ghost use Rattle.lines.specs.Line.{line_of};
ghost use Rattle.store.specs.Store.{line_count, market_of, Sized};
ghost use Rattle.store.specs.Moves.{Tabled};
ghost use Rattle.store.specs.ConnMoves.{NotFailed};
ghost use Rattle.moves.specs.Does.{Does, Ready, PushRoom, ItemsRoom, PrintsRoom, EnterRoom};

use lines::Line;
use lines::area::HeldPrint;
use rules::{Applied, EventKey, Item, Kind};

// Pushes an event and puts it out under its number.
pub fn push_out(
    s: &mut [u64],
    out: &mut [u64],
    n: usize,
    conn: u64,
    t: u64,
    key: EventKey,
    message: u64,
) -> usize
    requires { PushRoom s.old out.old n }
    ensures { Does (push_out conn t key message) s.old out.old n s.new out.new result }
{
    let number = store::entries::end(s);
    store::entries::push(s, key, t);
    let record = Applied {
        conn,
        kind: Kind::Book,
        number,
        key,
        message,
        times: 1,
    };
    output::put_record(out, n, record)
}

// Puts a snapshot out.
pub fn put_snapshot(
    s: &mut [u64],
    out: &mut [u64],
    n: usize,
    conn: u64,
    t: u64,
    message: u64,
) -> usize
    requires { (Sized s.old) × (7 * n + 7 ≤ length out.old) }
    ensures { (token : ℕ) → Does (put_items conn t (Item.Snapshot token message ∷ []))
        s.old out.old n s.new out.new result }
{
    store::entries::stamp(s, t);
    let record = Applied {
        conn,
        kind: Kind::Snapshot,
        number: 0,
        key: EventKey(0, 0),
        message,
        times: 1,
    };
    output::put_record(out, n, record)
}

// Puts an item out; an event is pushed too.
fn put_item(s: &mut [u64], out: &mut [u64], n: usize, conn: u64, t: u64, item: Item) -> usize
    requires { PushRoom s.old out.old n }
    ensures { Does (put_items conn t (item ∷ [])) s.old out.old n s.new out.new result }
{
    match item {
        Item::Snapshot(_, message) => put_snapshot(s, out, n, conn, t, message),
        Item::Event(key, message) => push_out(s, out, n, conn, t, key, message),
    }
}

// Puts the i-th line's items out in order.
fn put_items(s: &mut [u64], out: &mut [u64], n: usize, i: usize, t: u64) -> usize
    requires { ItemsRoom s.old out.old n i }
    ensures { Does (put_items (conn_at i (market_of s.old)).conn t
        (items_of (conn_at i (market_of s.old)).line))
        s.old out.old n s.new out.new result }
{
    let conn = store::conns::conn_at(s, i);
    let mut m = n;
    for j in 0..store::conns::held(s, i) {
        let item = store::conns::item_at(s, i, j);
        m = put_item(s, out, m, conn, t, item);
    }
    m
}

// Puts a held print out, if more copies were delivered than applied.
fn release_print(s: &mut [u64], out: &mut [u64], n: usize, conn: u64, print: HeldPrint) -> usize
    requires { (Tabled s.old) × (7 * n + 7 ≤ length out.old) }
    ensures { Does (release conn ((print.key, print.message) ∷ [])) s.old out.old n s.new out.new result }
{
    let key = print.key;
    let found = store::tables::find(s, key, conn);
    let delivered = store::tables::delivered(s, key, conn, found);
    let applied = store::tables::applied(s, key, found.key);
    if applied < delivered {
        store::tables::apply(s, key, delivered, found.key);
        let record = Applied {
            conn,
            kind: Kind::Print,
            number: 0,
            key,
            message: print.message,
            times: delivered - applied,
        };
        return output::put_record(out, n, record);
    }
    n
}

// Puts the i-th line's held prints out.
fn release_prints(s: &mut [u64], out: &mut [u64], n: usize, i: usize) -> usize
    requires { PrintsRoom s.old out.old n i }
    ensures { Does (release (conn_at i (market_of s.old)).conn (conn_at i (market_of s.old)).held)
        s.old out.old n s.new out.new result }
{
    let conn = store::conns::conn_at(s, i);
    let mut m = n;
    for j in 0..store::conns::prints_held(s, i) {
        let print = store::conns::print_at(s, i, j);
        m = release_print(s, out, m, conn, print);
    }
    m
}

// The i-th line enters line as this one in line, and its held prints are released.
pub fn enter(s: &mut [u64], out: &mut [u64], n: usize, i: usize, line: Line) -> usize
    requires { EnterRoom s.old out.old n i }
    ensures { (entry next : ℕ) (a b : Bool) → ((w : List ℕ) → line_of line w ≡ Rules.InLine next a b)
        → Does (enter i entry next a b) s.old out.old n s.new out.new result }
{
    let m = release_prints(s, out, n, i);
    store::conns::drop_prints(s, i);
    store::conns::set_line(s, i, line);
    m
}

// The i-th line takes the market over: its items are put out, and it enters line at the end.
pub fn take_over(s: &mut [u64], out: &mut [u64], n: usize, i: usize, t: u64) -> usize
    requires { (Ready s.old out.old n) × ((i < line_count s.old) × (NotFailed s.old i)) }
    ensures { Does (take_over i (items_of (conn_at i (market_of s.old)).line) t)
        s.old out.old n s.new out.new result }
{
    let m = put_items(s, out, n, i, t);
    let next = store::entries::end(s);
    let line = store::conns::line_at(s, i).taken_over(store::conns::items(s, i), next);
    enter(s, out, m, i, line)
}
