// Tables of two runs in a lent slice, from row b on: rows in order, and behind them new ones, in order by themselves.
ghost use Rattle.std.specs.Prelude.{◌≡◌, ℕ, ◌+◌, ◌-◌, ◌*◌, ◌≤◌, ◌<◌, length};
ghost use Rattle.rules.specs.Lists.{Rising};
ghost use Rattle.words.specs.Words.{tab, Says};
ghost use Rattle.rows.specs.Rows.{row, row_at, row_in};
ghost use Rattle.rows.specs.Tables.{Before, size, table_of, most_new, Lies, Table, Missing, Stands, Joined, Grown};
ghost use Rattle.rows.specs.Merging.{Settled, SeekNew};

use crate::{Added, Place, RowKey, Runs};

// Where the row of the words given stands; where none does, the gap among the new rows where it would.
pub fn find(t: &[u64], b: usize, u: Runs, key: RowKey) -> Place
    requires { 4 * (b + size u) ≤ length t.now }
    ensures { Stands key.three b u key.x key.y key.z t.now result }
{
    match crate::locate(t, b, u.old, key) {
        Ok(i) => Ok(i),
        Err(_) => match crate::locate(t, b + u.old, u.new, key) {
            Ok(i) => Ok(u.old + i),
            Err(i) => Err(i),
        },
    }
}

// How many new rows a table of n rows in order gets before they are merged: about twice the root of n, so that a row is moved as often among
// the new ones as by merges.
fn most_new(n: usize) -> usize
    ensures { result ≤ most_new }
{
    match n {
        0..=127 => 16,
        128..=511 => 32,
        512..=2047 => 64,
        2048..=8191 => 128,
        8192..=32767 => 256,
        _ => crate::MOST_NEW,
    }
}

// The last of j new rows finds its place among i rows in order, and those above it move up by j. Answers how many stay below it.
fn settle(t: &mut [u64], new: &[u64], b: usize, i: usize, j: usize, three: bool) -> usize
    requires j_nonzero { (0 < j) × (4 * j ≤ length new.now) }
    requires j_in_bounds { 4 * (b + (i + j)) ≤ length t.old }
    ensures { Settled three b i j new.now t.old t.new result }
{
    let p = 4 * (j - 1);
    let (x, y, z, u) = (new[p], new[p + 1], new[p + 2], new[p + 3]);
    let at = crate::lower(t, b, i, RowKey { three, x, y, z });
    crate::shift(t, b + at, b + i, j);
    crate::put_row(t, b + at + (j - 1), x, y, z, u);
    at
}

// The new rows, of which `new` has a copy, come to their places, the last one first.
fn settle_all(t: &mut [u64], new: &[u64], b: usize, u: Runs, three: bool)
    requires table { Table three b u t.old }
    requires u_in_bounds { (4 * u.new ≤ length new.now) × ((k : ℕ) → k < u.new → row_at new.now k ≡ row_in (b + u.old) t.old k) }
    ensures { Joined three b u t.old t.new }
{
    let mut i = u.old;
    for j in (0..u.new).rev() {
        i = settle(t, new, b, i, j + 1, three);
    }
}

// Merges the new rows into those in order, by way of a copy of them at the front of `new`.
fn join_by(t: &mut [u64], new: &mut [u64], b: usize, u: Runs, three: bool)
    requires { (Table three b u t.old) × (4 * u.new ≤ length new.old) }
    ensures { Joined three b u t.old t.new }
{
    let a = 4 * (b + u.old);
    let n = 4 * u.new;
    new[..n].copy_from_slice(&t[a..a + n]);
    settle_all(t, new, b, u, three);
}

// Merges the new rows into those in order. An array for few of them is sooner made than one for many.
pub fn join(t: &mut [u64], b: usize, u: Runs, three: bool)
    requires { Table three b u t.old }
    ensures { Joined three b u t.old t.new }
{
    match u.new {
        0..=64 => join_by(t, &mut [0; 256], b, u, three),
        65..=128 => join_by(t, &mut [0; 512], b, u, three),
        _ => join_by(t, &mut [0; 2048], b, u, three),
    }
}

// A row that is missing is put in: among the new ones, where it has its gap, or, where these are many, alone behind all others, merged.
pub fn add(t: &mut [u64], b: usize, u: Runs, gap: usize, key: RowKey, w: u64) -> Added
    requires table { (Table key.three b u t.old) × (4 * (b + size u) + 3 < length t.old) }
    requires missing { Missing key.three b u key.x key.y key.z t.old gap }
    ensures { Grown key.three b u (row key.x key.y key.z w) t.old t.new result }
{
    let n = u.old + u.new;
    if u.new < most_new(u.old) {
        let at = u.old + gap;
        crate::shift(t, b + at, b + n, 1);
        crate::put_row(t, b + at, key.x, key.y, key.z, w);
        return Added {
            runs: Runs {
                old: u.old,
                new: u.new + 1,
            },
            at,
        };
    }
    join(t, b, u, key.three);
    crate::put_row(t, b + n, key.x, key.y, key.z, w);
    Added {
        runs: Runs { old: n, new: 1 },
        at: n,
    }
}

// Where new row i, behind n rows in order, would stand among these, of which k are below it, or does stand.
fn seek_new(t: &[u64], b: usize, n: usize, i: usize, k: usize, three: bool) -> Place
    requires i_in_bounds { (4 * (b + n + i) + 3 < length t.now) × (k < n) }
    requires before { 0 < k → Before three (row_in b t.now (k - 1)) (row_at t.now (b + n + i)) }
    ensures { SeekNew three b n t.now (row_at t.now (b + n + i)) result }
{
    let p = 4 * (b + n + i);
    let (x, y, z) = (t[p], t[p + 1], t[p + 2]);
    let key = RowKey { three, x, y, z };
    if crate::less(t, b + k, key) {
        return crate::seek(t, b, n, k + 1, key);
    }
    if crate::same(t, b + k, key) {
        Ok(k)
    } else {
        Err(k)
    }
}

// Whether the rows of a table rise, where those of each run do: whether no new row is among those in order.
// The search ends where the next new row, and so each behind it, is above all of these.
pub fn apart(t: &[u64], b: usize, u: Runs, three: bool) -> bool
    requires lies { Lies b u t.now }
    requires rising { Rising (Before three) (tab u.old (row_in b t.now)) }
    requires rising_2 { Rising (Before three) (tab u.new (row_in (b + u.old) t.now)) }
    ensures { Says result (Rising (Before three) (table_of three b u t.now)) }
{
    let mut k = 0;
    for i in 0..u.new {
        if u.old <= k {
            return true;
        }
        match seek_new(t, b, u.old, i, k, three) {
            Ok(_) => return false,
            Err(gap) => k = gap,
        }
    }
    true
}
