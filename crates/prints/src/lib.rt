// The print tables of a market in one lent slice: c rows of four words for keys (k0, k1, applied, touched),
// then rows for counts (k0, k1, connection, delivered). Each is a table of two runs.
#![tactic(auto)]

pub mod expiry;
pub mod sound;

ghost use Rattle.std.specs.Prelude.{◌≡◌, false, true, ◌&&◌, map, suc, ◌+◌, ◌*◌, ◌≤◌, ◌<◌, length, leb};
ghost use Rattle.rules.specs.Quantities.{max_count};
ghost use Rattle.rules.specs.Prints.{applied_in, delivered_in, counted, apply_print, remove_counts};
ghost use Rattle.rules.specs.Calls.{no_row};
ghost use Rattle.rules.specs.Sound.{TablesSound};
ghost use Rattle.rules.specs.declared.Limits.{Limits};
ghost use Rattle.rows.specs.Tables.{size, table_of, Table, Stands};
ghost use Rattle.prints.specs.Area.{count_row, prints_of, Fit, Fits, Free, KeyStands, PairStands, FoundIn};
ghost use Rattle.prints.specs.Steps.{is_gap, KeyTouched, PairCounted};

use rows::{Added, Place, RowKey, Runs};
use rules::EventKey;

// The largest count of copies.
pub const MAX_COUNT: u64 = 4_294_967_295;

// The rows in use.
#[derive(Clone, Copy, Debug, PartialEq, Eq)]
pub struct Used {
    pub keys: Runs,
    pub counts: Runs,
}

// Where the row of a key stands, and that of the key and a connection.
#[derive(Clone, Copy, Debug, PartialEq, Eq)]
pub struct Found {
    pub key: Place,
    pub pair: Place,
}

// The rows in use after a print was counted, and where its key's row stands.
#[derive(Clone, Copy, Debug, PartialEq, Eq)]
pub struct Counted {
    pub used: Used,
    pub key: Place,
}

// Where the rows of a print of the key by the connection stand.
pub fn find(area: &[u64], c: usize, used: Used, key: EventKey, conn: u64) -> Found
    requires { Fits c area.now used }
    ensures { FoundIn c area.now used key conn result }
{
    let EventKey(x, y) = key;
    let of_key = RowKey {
        three: false,
        x,
        y,
        z: 0,
    };
    let of_pair = RowKey {
        three: true,
        x,
        y,
        z: conn,
    };
    Found {
        key: rows::tables::find(area, 0, used.keys, of_key),
        pair: rows::tables::find(area, c, used.counts, of_pair),
    }
}

// How many copies of the print have been applied.
pub fn applied(area: &[u64], c: usize, used: Used, key: EventKey, place: Place) -> u64
    requires fits { Fits c area.now used }
    requires tables_sound { TablesSound (prints_of c area.now used) }
    requires key_stands { KeyStands area.now used key place }
    ensures { result ≡ applied_in key (prints_of c area.now used).key_rows }
{
    match place {
        Ok(i) => area[4 * i + 2],
        Err(_) => 0,
    }
}

// How many copies of the print the connection has delivered.
pub fn delivered(area: &[u64], c: usize, used: Used, key: EventKey, conn: u64, place: Place) -> u64
    requires fits { Fits c area.now used }
    requires tables_sound { TablesSound (prints_of c area.now used) }
    requires pair_stands { PairStands c area.now used key conn place }
    ensures { result ≡ delivered_in key conn (prints_of c area.now used).count_rows }
{
    match place {
        Ok(i) => area[4 * (c + i) + 3],
        Err(_) => 0,
    }
}

// A row is needed, for none was found, and none of the limit is free.
fn none_free(place: Place, u: Runs, limit: usize) -> bool
    requires { size u ≤ limit }
    ensures { result ≡ (is_gap place && leb limit (size u)) }
{
    place.is_err() && limit <= u.old + u.new
}

// A print of the key by the connection needs a row, and none is free.
pub fn no_row(
    area: &[u64],
    c: usize,
    d: usize,
    used: Used,
    key: EventKey,
    conn: u64,
    found: Found,
) -> bool
    requires fit { Fit c d area.now used }
    requires tables_sound { TablesSound (prints_of c area.now used) }
    requires found_in { FoundIn c area.now used key conn found }
    ensures { (l : Limits) → l.C ≡ c → l.D ≡ d → result ≡ no_row key conn l (prints_of c area.now used) }
{
    none_free(found.key, used.keys, c) || none_free(found.pair, used.counts, d)
}

// The key is touched at t; a new key gets a row. Answers the rows in use and where the key's row stands.
fn touch(area: &mut [u64], c: usize, keys: Runs, key: EventKey, t: u64, place: Place) -> Added
    requires table { (Table false 0 keys area.old) × ((size keys ≤ c) × (4 * c ≤ length area.old)) }
    requires stands { Stands false 0 keys key.0 key.1 0 area.old place }
    requires keys_bound { is_gap place ≡ true → size keys < c }
    ensures { KeyTouched c keys key t area.old area.new result }
{
    match place {
        Ok(i) => {
            area[4 * i + 3] = t;
            Added { runs: keys, at: i }
        }
        Err(gap) => {
            let EventKey(x, y) = key;
            rows::tables::add(
                area,
                0,
                keys,
                gap,
                RowKey {
                    three: false,
                    x,
                    y,
                    z: 0,
                },
                t,
            )
        }
    }
}

// The connection has delivered n copies; a new pair gets a row. Answers the rows in use.
fn count(
    area: &mut [u64],
    c: usize,
    counts: Runs,
    key: EventKey,
    conn: u64,
    n: u64,
    place: Place,
) -> Runs
    requires table { Table true c counts area.old }
    requires stands { Stands true c counts key.0 key.1 conn area.old place }
    requires counts_in_bounds { is_gap place ≡ true → 4 * (c + size counts) + 3 < length area.old }
    requires n_value { n ≡ suc (delivered_in key conn (map count_row (table_of true c counts area.old))) }
    ensures { PairCounted c counts key conn area.old area.new result }
{
    match place {
        Ok(i) => {
            area[4 * (c + i) + 3] = n;
            counts
        }
        Err(gap) => {
            let EventKey(x, y) = key;
            rows::tables::add(
                area,
                c,
                counts,
                gap,
                RowKey {
                    three: true,
                    x,
                    y,
                    z: conn,
                },
                n,
            )
            .runs
        }
    }
}

// A print of the key by the connection is counted, and the key touched at t.
pub fn deliver(
    area: &mut [u64],
    c: usize,
    used: Used,
    key: EventKey,
    conn: u64,
    t: u64,
    found: Found,
) -> Counted
    requires fits { Fits c area.old used }
    requires tables_sound { TablesSound (prints_of c area.old used) }
    requires found_in { FoundIn c area.old used key conn found }
    requires free { Free c area.old used key conn }
    requires used_bound { delivered_in key conn (prints_of c area.old used).count_rows < max_count }
    ensures used_after { prints_of c area.new result.used ≡ counted key conn t (prints_of c area.old used) }
    ensures fits_2 { (Fits c area.new result.used) × (KeyStands area.new result.used key result.key) }
{
    let d = delivered(area, c, used, key, conn, found.pair);
    let added = touch(area, c, used.keys, key, t, found.key);
    let counts = count(area, c, used.counts, key, conn, d + 1, found.pair);
    let keys = added.runs;
    Counted {
        used: Used { keys, counts },
        key: Ok(added.at),
    }
}

// n copies of the print have been applied.
pub fn apply(area: &mut [u64], c: usize, used: Used, key: EventKey, n: u64, place: Place)
    requires fits { Fits c area.old used }
    requires tables_sound { TablesSound (prints_of c area.old used) }
    requires key_stands { KeyStands area.old used key place }
    ensures { prints_of c area.new used ≡ apply_print key n (prints_of c area.old used) }
{
    if let Ok(i) = place {
        area[4 * i + 2] = n;
    }
}

// The connection's delivered counts go, of every key; applied counts stay.
pub fn remove_counts(area: &mut [u64], c: usize, used: Used, conn: u64) -> Used
    requires fits { Fits c area.old used }
    requires tables_sound { TablesSound (prints_of c area.old used) }
    ensures result_after { prints_of c area.new result ≡ remove_counts conn (prints_of c area.old used) }
    ensures fits_2 { Fits c area.new result }
{
    let counts = rows::removal::remove(area, c, used.counts, conn);
    Used { counts, ..used }
}
