// The moves on one line of a store.
ghost use Rattle.std.specs.Prelude.{◌≡◌, [], ◌∷◌, ◌++◌, ◌≤◌, ◌<◌, length, get_or, set};
ghost use Rattle.rules.specs.Quantities.{same, max_number};
ghost use Rattle.rules.specs.Lists.{any};
ghost use Rattle.rules.specs.Lines as Rules;
ghost use Rattle.rules.specs.Lines.{conn_at, items_of, with_lines, set_line, set_conn, waiting, someone, some_due, item_count};
ghost use Rattle.rules.specs.Entering.{pendings as pending_lines};
ghost use Rattle.place.specs.Items.{item_in};
ghost use Rattle.lines.specs.Line.{line_of, holding};
ghost use Rattle.lines.specs.Area.{head_line, no_print};
ghost use Rattle.store.specs.Store.{limits_of, line_count, line_words_at, market_of};
ghost use Rattle.store.specs.ConnMoves.{items_at, Lined, LineAt, LineFits, NotFailed, ItemRoom, PrintRoom};
ghost use Rattle.store.specs.Moves.{Moved};

use lines::Line;
use lines::area::HeldPrint;
use rules::{EventKey, Item};

// How many lines there are.
pub fn count(s: &[u64]) -> usize
    requires { 64 ≤ length s.now }
    ensures { result ≡ line_count s.now }
{
    s[9] as usize
}

// The held limit H.
pub fn held_limit(s: &[u64]) -> usize
    requires { 64 ≤ length s.now }
    ensures { result ≡ (limits_of s.now).H }
{
    s[1] as usize
}

// The i-th line's words.
pub fn line_words(s: &[u64], i: usize) -> &[u64]
    requires { LineAt s.now i }
    ensures { result.now ≡ line_words_at s.now i }
{
    let a = crate::areas::line_start(s, i);
    let e = crate::areas::line_end(s, i);
    &s[a..e]
}

// The i-th line's connection.
pub fn conn_at(s: &[u64], i: usize) -> u64
    requires { LineAt s.now i }
    ensures { result ≡ (conn_at i (market_of s.now)).conn }
{
    lines::area::conn(line_words(s, i))
}

// The i-th line's limit.
pub fn limit_at(s: &[u64], i: usize) -> usize
    requires { LineAt s.now i }
    ensures { result ≡ (conn_at i (market_of s.now)).limit }
{
    lines::area::limit(line_words(s, i))
}

// The i-th line, by value.
pub fn line_at(s: &[u64], i: usize) -> Line
    requires { LineAt s.now i }
    ensures { result ≡ head_line (line_words_at s.now i) }
{
    lines::area::line(line_words(s, i))
}

// The words of the i-th line's items.
pub fn items(s: &[u64], i: usize) -> &[u64]
    requires { LineAt s.now i }
    ensures { result.now ≡ items_at s.now i }
{
    let h = s[1] as usize;
    lines::area::items(line_words(s, i), h)
}

// How many items the i-th line holds.
pub fn held(s: &[u64], i: usize) -> usize
    requires { LineAt s.now i }
    ensures { result ≡ length (items_of (conn_at i (market_of s.now)).line) }
{
    line_at(s, i).held()
}

// The i-th line's j-th item.
pub fn item_at(s: &[u64], i: usize, j: usize) -> Item
    requires { (LineFits s.now i) × (j < length (items_of (conn_at i (market_of s.now)).line)) }
    ensures { result ≡ item_in (items_at s.now i) j }
{
    place::item_at(items(s, i), j)
}

// How many prints the i-th line holds.
pub fn prints_held(s: &[u64], i: usize) -> usize
    requires { LineAt s.now i }
    ensures { result ≡ length (conn_at i (market_of s.now)).held }
{
    lines::area::prints_held(line_words(s, i))
}

// The place of a connection's line; the count of lines if it has none.
pub fn find(s: &[u64], conn: u64) -> usize
    requires { Lined s.now }
    ensures { result ≡ Rules.line_of conn (market_of s.now) }
{
    let n = count(s);
    for i in 0..n {
        if conn_at(s, i) == conn {
            return i;
        }
    }
    n
}

// Gives the i-th connection another line; its items and held prints stay.
pub fn set_line(s: &mut [u64], i: usize, line: Line)
    requires { LineAt s.old i }
    ensures { Moved s.old s.new (set_line i (line_of line (items_at s.old i)) (market_of s.old)) }
{
    let a = crate::areas::line_start(s, i);
    let e = crate::areas::line_end(s, i);
    lines::area::set_line(&mut s[a..e], line);
}

// The i-th line holds an item behind the others.
pub fn hold_item(s: &mut [u64], i: usize, item: Item)
    requires { ItemRoom s.old i item }
    ensures { Moved s.old s.new
        (set_line i (holding item (conn_at i (market_of s.old)).line) (market_of s.old)) }
{
    let h = s[1] as usize;
    let a = crate::areas::line_start(s, i);
    let e = crate::areas::line_end(s, i);
    lines::area::hold_item(&mut s[a..e], h, item);
}

// Whether the i-th line holds a print of this key.
pub fn holds_print(s: &[u64], i: usize, key: EventKey) -> bool
    requires { LineFits s.now i }
    ensures { result ≡ any (λ p. same p.0 key) (conn_at i (market_of s.now)).held }
{
    let h = s[1] as usize;
    lines::area::holds_print(line_words(s, i), h, key)
}

// The j-th print that the i-th line holds.
pub fn print_at(s: &[u64], i: usize, j: usize) -> HeldPrint
    requires { (LineFits s.now i) × (j < length (conn_at i (market_of s.now)).held) }
    ensures { (result.key, result.message) ≡ get_or (conn_at i (market_of s.now)).held j no_print }
{
    let h = s[1] as usize;
    lines::area::print_at(line_words(s, i), h, j)
}

// The i-th line holds a print behind the others.
pub fn hold_print(s: &mut [u64], i: usize, key: EventKey, message: u64)
    requires { PrintRoom s.old i }
    ensures { Moved s.old s.new
        (set_conn i (conn_at i (market_of s.old)).line
        ((conn_at i (market_of s.old)).held ++ ((key, message) ∷ [])) (market_of s.old)) }
{
    let h = s[1] as usize;
    let a = crate::areas::line_start(s, i);
    let e = crate::areas::line_end(s, i);
    lines::area::hold_print(&mut s[a..e], h, key, message);
}

// The i-th line lets its held prints go.
pub fn drop_prints(s: &mut [u64], i: usize)
    requires { (LineAt s.old i) × (NotFailed s.old i) }
    ensures { Moved s.old s.new (set_conn i (conn_at i (market_of s.old)).line [] (market_of s.old)) }
{
    let h = s[1] as usize;
    let a = crate::areas::line_start(s, i);
    let e = crate::areas::line_end(s, i);
    lines::area::drop_prints(&mut s[a..e], h);
}

// The i-th line is written anew: this connection's, Waiting, empty, since t, with this limit.
pub fn put_waiting(s: &mut [u64], i: usize, conn: u64, limit: u64, t: u64)
    requires { LineAt s.old i }
    ensures { Moved s.old s.new
        (with_lines (set (market_of s.old).lines i (waiting conn limit t)) (market_of s.old)) }
{
    let a = crate::areas::line_start(s, i);
    let e = crate::areas::line_end(s, i);
    lines::area::put_waiting(&mut s[a..e], conn, limit, t);
}

// Whether anyone is in line.
pub fn any_in_line(s: &[u64]) -> bool
    requires { Lined s.now }
    ensures { result ≡ someone (market_of s.now).lines }
{
    for i in 0..count(s) {
        if line_at(s, i).in_line() {
            return true;
        }
    }
    false
}

// Whether any line is due a snapshot.
pub fn some_due(s: &[u64]) -> bool
    requires { Lined s.now }
    ensures { result ≡ some_due (market_of s.now).lines }
{
    for i in 0..count(s) {
        if line_at(s, i).due() {
            return true;
        }
    }
    false
}

// How many lines are pending.
pub fn pendings(s: &[u64]) -> usize
    requires { Lined s.now }
    ensures { result ≡ pending_lines (market_of s.now).lines }
{
    let mut pending = 0;
    for i in 0..count(s) {
        if line_at(s, i).pending() {
            pending += 1;
        }
    }
    pending
}

// How many items all lines hold.
pub fn held_items(s: &[u64]) -> usize
    requires { (Lined s.now) × (item_count (market_of s.now).lines ≤ max_number) }
    ensures { result ≡ item_count (market_of s.now).lines }
{
    let mut held = 0;
    for i in 0..count(s) {
        held += line_at(s, i).held();
    }
    held
}
