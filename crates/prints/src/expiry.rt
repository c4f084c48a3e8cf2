// Which keys are too old, and that they go.
ghost use Rattle.std.specs.Prelude.{◌≡◌, true, ℕ, ◌+◌, ◌*◌, ◌≤◌, ◌<◌, length, leb};
ghost use Rattle.rules.specs.Quantities.{age, other_keep};
ghost use Rattle.rules.specs.Prints.{of_key, expire_prints};
ghost use Rattle.rules.specs.Sound.{TablesSound};
ghost use Rattle.words.specs.Words.{Says};
ghost use Rattle.rows.specs.Tables.{size};
ghost use Rattle.prints.specs.Area.{key_at, count_at, prints_of, Fits};
ghost use Rattle.prints.specs.Steps.{in_order, CountsKept, KeysKept};

use crate::Used;
use rows::{RowKey, Runs};

// A key untouched for longer is forgotten.
const OTHER_KEEP: u64 = 30_000;

// Key row i was touched no longer than OTHER_KEEP before t.
fn fresh(area: &[u64], i: usize, t: u64) -> bool
    requires { 4 * i + 3 < length area.now }
    ensures { result ≡ leb (age t (key_at area.now i).touched) other_keep }
{
    t.saturating_sub(area[4 * i + 3]) <= OTHER_KEEP
}

// Count row j is one of the m, and of the key of key row i.
fn owns(area: &[u64], c: usize, m: usize, i: usize, j: usize) -> bool
    requires { (4 * i + 3 < length area.now) × (4 * (c + m) ≤ length area.now) }
    ensures { Says result ((j < m) × (of_key (count_at c area.now j).key (key_at area.now i) ≡ true)) }
{
    if j >= m {
        return false;
    }
    let q = 4 * (c + j);
    let (x, y) = (area[q], area[q + 1]);
    rows::same(
        area,
        i,
        RowKey {
            three: false,
            x,
            y,
            z: 0,
        },
    )
}

// Of n keys and m count rows, all in order: the count rows of the keys that stay at t move together. Answers how many they are.
fn keep_counts(area: &mut [u64], c: usize, n: usize, m: usize, t: u64) -> usize
    requires n_le_c { (n ≤ c) × (4 * (c + m) ≤ length area.old) }
    requires tables_sound { TablesSound (in_order c n m area.old) }
    ensures { CountsKept c n m t area.old area.new result }
{
    let mut k = 0;
    let mut j = 0;
    for i in 0..m {
        // a `while`: it looks on from the key of the row before, since no row's key is behind that
        while !owns(area, c, m, k, i) {
            k += 1;
        }
        if fresh(area, k, t) {
            rows::copy_row(area, c + i, c + j);
            j += 1;
        }
    }
    j
}

// The keys that stay at t move together. Answers how many they are.
fn keep_keys(area: &mut [u64], n: usize, t: u64) -> usize
    requires { 4 * n ≤ length area.old }
    ensures { KeysKept n t area.old area.new result }
{
    let mut j = 0;
    for i in 0..n {
        if fresh(area, i, t) {
            rows::copy_row(area, i, j);
            j += 1;
        }
    }
    j
}

// Whether each of the first n keys stays at t.
fn all_fresh(area: &[u64], n: usize, t: u64) -> bool
    requires { 4 * n ≤ length area.now }
    ensures { result ≡ true → (k : ℕ) → k < n → leb (age t (key_at area.now k).touched) other_keep ≡ true }
{
    for i in 0..n {
        if !fresh(area, i, t) {
            return false;
        }
    }
    true
}

// The rows of both tables stand in order, none of them new.
fn join(area: &mut [u64], c: usize, used: Used)
    requires fits { Fits c area.old used }
    requires tables_sound { TablesSound (prints_of c area.old used) }
    ensures { in_order c (size used.keys) (size used.counts) area.new ≡ prints_of c area.old used }
{
    rows::tables::join(area, 0, used.keys, false);
    rows::tables::join(area, c, used.counts, true);
}

// Keys untouched for longer than OTHER_KEEP go, with all their rows.
pub fn expire(area: &mut [u64], c: usize, used: Used, t: u64) -> Used
    requires fits { Fits c area.old used }
    requires tables_sound { TablesSound (prints_of c area.old used) }
    ensures result_after { prints_of c area.new result ≡ expire_prints t (prints_of c area.old used) }
    ensures fits_2 { Fits c area.new result }
{
    let n = used.keys.old + used.keys.new;
    let m = used.counts.old + used.counts.new;
    if all_fresh(area, n, t) {
        return used;
    }
    join(area, c, used);
    let counts = keep_counts(area, c, n, m, t);
    let keys = keep_keys(area, n, t);
    Used {
        keys: Runs { old: keys, new: 0 },
        counts: Runs {
            old: counts,
            new: 0,
        },
    }
}
