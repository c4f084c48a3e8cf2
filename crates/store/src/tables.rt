// The print tables of a whole store: their rows in the area behind the log, and in the header how many are in use.
ghost use Rattle.std.specs.Prelude.{◌≡◌, false, ◌≤◌, ◌<◌, length};
ghost use Rattle.rules.specs.Quantities.{max_count};
ghost use Rattle.rules.specs.Prints.{applied_in, delivered_in, counted, apply_print, remove_counts, expire_prints};
ghost use Rattle.rules.specs.Calls.{no_row};
ghost use Rattle.rules.specs.Lines.{with_prints};
ghost use Rattle.store.specs.Store.{used_of, put_used, table_words, market_of, Sized};
ghost use Rattle.store.specs.Moves.{Moved, Tabled, KeyFound, PrintFound};

use prints::{Found, Used};
use rows::{Place, Runs};
use rules::EventKey;

// How many rows are in use.
pub fn used(s: &[u64]) -> Used
    requires { 64 ≤ length s.now }
    ensures { result ≡ used_of s.now }
{
    Used {
        keys: Runs {
            old: s[10] as usize,
            new: s[13] as usize,
        },
        counts: Runs {
            old: s[11] as usize,
            new: s[14] as usize,
        },
    }
}

// Writes how many rows are in use.
fn put_used(s: &mut [u64], used: Used)
    requires { 64 ≤ length s.old }
    ensures { s.new ≡ put_used used s.old }
{
    s[10] = used.keys.old as u64;
    s[11] = used.counts.old as u64;
    s[13] = used.keys.new as u64;
    s[14] = used.counts.new as u64;
}

// The words of both tables.
pub fn area(s: &[u64]) -> &[u64]
    requires { Sized s.now }
    ensures { result.now ≡ table_words s.now }
{
    let a = crate::areas::tables_start(s);
    let e = crate::areas::lines_start(s);
    &s[a..e]
}

// Where the rows of a print of the key by the connection stand.
pub fn find(s: &[u64], key: EventKey, conn: u64) -> Found
    requires { Tabled s.now }
    ensures { PrintFound s.now key conn result }
{
    let c = s[3] as usize;
    prints::find(area(s), c, used(s), key, conn)
}

// How many copies of the print have been applied.
pub fn applied(s: &[u64], key: EventKey, place: Place) -> u64
    requires { (Tabled s.now) × (KeyFound s.now key place) }
    ensures { result ≡ applied_in key (market_of s.now).prints.key_rows }
{
    let c = s[3] as usize;
    prints::applied(area(s), c, used(s), key, place)
}

// How many copies of the print the connection has delivered.
pub fn delivered(s: &[u64], key: EventKey, conn: u64, found: Found) -> u64
    requires { (Tabled s.now) × (PrintFound s.now key conn found) }
    ensures { result ≡ delivered_in key conn (market_of s.now).prints.count_rows }
{
    let c = s[3] as usize;
    prints::delivered(area(s), c, used(s), key, conn, found.pair)
}

// A print of the key by the connection needs a row, and none is free.
pub fn no_row(s: &[u64], key: EventKey, conn: u64, found: Found) -> bool
    requires { (Tabled s.now) × (PrintFound s.now key conn found) }
    ensures { result ≡ no_row key conn (market_of s.now).limits (market_of s.now).prints }
{
    let c = s[3] as usize;
    let d = s[4] as usize;
    prints::no_row(area(s), c, d, used(s), key, conn, found)
}

// A print of the key by the connection is counted, and the key touched at t. Answers where the key's row stands.
pub fn deliver(s: &mut [u64], key: EventKey, conn: u64, t: u64, found: Found) -> Place
    requires tabled { (Tabled s.old) × (PrintFound s.old key conn found) }
    requires s_value { no_row key conn (market_of s.old).limits (market_of s.old).prints ≡ false }
    requires s_bound { delivered_in key conn (market_of s.old).prints.count_rows < max_count }
    ensures moved { Moved s.old s.new
        (with_prints (counted key conn t (market_of s.old).prints) (market_of s.old)) }
    ensures key_found { KeyFound s.new key result }
{
    let c = s[3] as usize;
    let a = crate::areas::tables_start(s);
    let e = crate::areas::lines_start(s);
    let old = used(s);
    let counted = prints::deliver(&mut s[a..e], c, old, key, conn, t, found);
    put_used(s, counted.used);
    counted.key
}

// n copies of the print have been applied.
pub fn apply(s: &mut [u64], key: EventKey, n: u64, place: Place)
    requires { (Tabled s.old) × (KeyFound s.old key place) }
    ensures { Moved s.old s.new (with_prints (apply_print key n (market_of s.old).prints) (market_of s.old)) }
{
    let c = s[3] as usize;
    let a = crate::areas::tables_start(s);
    let e = crate::areas::lines_start(s);
    let old = used(s);
    prints::apply(&mut s[a..e], c, old, key, n, place);
}

// The connection's delivered counts go, of every key.
pub fn remove_counts(s: &mut [u64], conn: u64)
    requires { Tabled s.old }
    ensures { Moved s.old s.new (with_prints (remove_counts conn (market_of s.old).prints) (market_of s.old)) }
{
    let c = s[3] as usize;
    let a = crate::areas::tables_start(s);
    let e = crate::areas::lines_start(s);
    let old = used(s);
    let new = prints::remove_counts(&mut s[a..e], c, old, conn);
    put_used(s, new);
}

// The print keys that are untouched for too long at t go, with all their rows.
pub fn expire(s: &mut [u64], t: u64)
    requires { Tabled s.old }
    ensures { Moved s.old s.new (with_prints (expire_prints t (market_of s.old).prints) (market_of s.old)) }
{
    let c = s[3] as usize;
    let a = crate::areas::tables_start(s);
    let e = crate::areas::lines_start(s);
    let old = used(s);
    let new = prints::expiry::expire(&mut s[a..e], c, old, t);
    put_used(s, new);
}
