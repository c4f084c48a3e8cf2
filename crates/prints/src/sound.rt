// Whether the tables are sound.
ghost use Rattle.std.specs.Prelude.{◌≡◌, false, true, ℕ, ◌+◌, ◌-◌, ◌*◌, ◌≤◌, ◌<◌, length};
ghost use Rattle.rules.specs.Sound.{TablesSound};
ghost use Rattle.words.specs.Words.{Says};
ghost use Rattle.rows.specs.Rows.{row_in, below, Rises, Located};
ghost use Rattle.rows.specs.Tables.{Lies, Table};
ghost use Rattle.prints.specs.Area.{prints_of, Fits};
ghost use Rattle.prints.specs.Steps.{HasKey, KeySound, KeysSound, Again, Reached, Owned, CountSound, CountTested, CountsSound};

use crate::Used;
use rows::{Place, RowKey, Runs};

// Whether key i of a run from row b on is in order, and its count fits.
fn key_sound(area: &[u64], b: usize, i: usize) -> bool
    requires { 4 * (b + i) + 3 < length area.now }
    ensures { Says result (KeySound b area.now i) }
{
    area[4 * (b + i) + 2] <= crate::MAX_COUNT && rows::rises(area, b, i, false)
}

// Whether each of n keys from row b on is.
fn key_run(area: &[u64], b: usize, n: usize) -> bool
    requires { 4 * (b + n) ≤ length area.now }
    ensures { Says result ((i : ℕ) → i < n → KeySound b area.now i) }
{
    for i in 0..n {
        if !key_sound(area, b, i) {
            return false;
        }
    }
    true
}

// Whether the table of keys is in order, and its counts fit.
fn keys_sound(area: &[u64], keys: Runs) -> bool
    requires { Lies 0 keys area.now }
    ensures { Says result (KeysSound keys area.now) }
{
    key_run(area, 0, keys.old)
        && key_run(area, keys.old, keys.new)
        && rows::tables::apart(area, 0, keys, false)
}

// Whether row j of a run is of the same key as the row before it.
fn again(area: &[u64], b: usize, j: usize) -> bool
    requires { 4 * (b + j) + 3 < length area.now }
    ensures { Says result (Again b area.now j) }
{
    if j == 0 {
        return false;
    }
    let p = 4 * (b + j);
    let (x, y) = (area[p], area[p + 1]);
    rows::same(
        area,
        b + (j - 1),
        RowKey {
            three: false,
            x,
            y,
            z: 0,
        },
    )
}

// Where the row of the words given stands among n keys from row b on, of which i are below it: most often it is the next.
fn next_key(area: &[u64], b: usize, n: usize, i: usize, key: RowKey) -> Place
    requires n_in_bounds { (4 * (b + n) ≤ length area.now) × (i ≤ n) }
    requires key_value { 0 < i → below key.three (row_in b area.now (i - 1)) key.x key.y key.z ≡ true }
    ensures { Located key.three (row_in b area.now) n key.x key.y key.z result }
{
    if i < n {
        if rows::same(area, b + i, key) {
            Ok(i)
        } else {
            rows::seek(area, b, n, i, key)
        }
    } else {
        Err(i)
    }
}

// Whether row j of a run of count rows has its key, where that is above the key of the row before it. If so, how many keys of both runs are passed.
fn owner(area: &[u64], b: usize, j: usize, keys: Runs, passed: Runs) -> Option<Runs>
    requires table { (Table false 0 keys area.now) × (4 * (b + j) + 3 < length area.now) }
    requires rises { (Rises false b area.now j) × (Reached keys b area.now j passed) }
    ensures { Owned keys b area.now j result }
{
    let p = 4 * (b + j);
    let (x, y) = (area[p], area[p + 1]);
    let key = RowKey {
        three: false,
        x,
        y,
        z: 0,
    };
    match next_key(area, 0, keys.old, passed.old, key) {
        Ok(k) => Some(Runs {
            old: k + 1,
            new: passed.new,
        }),
        Err(k) => match next_key(area, keys.old, keys.new, passed.new, key) {
            Ok(l) => Some(Runs { old: k, new: l + 1 }),
            Err(_) => None,
        },
    }
}

// Whether row j of a run of count rows is in order, its count fits, and it has its key: that of the row before it has been found.
// If so, how many keys of both runs are passed.
fn count_sound(area: &[u64], b: usize, j: usize, keys: Runs, passed: Runs) -> Option<Runs>
    requires table { (Table false 0 keys area.now) × (4 * (b + j) + 3 < length area.now) }
    requires has_key { 0 < j → HasKey keys area.now (b + (j - 1)) }
    requires reached { Reached keys b area.now j passed }
    ensures { CountTested keys b area.now j result }
{
    if crate::MAX_COUNT < area[4 * (b + j) + 3] || !rows::rises(area, b, j, true) {
        return None;
    }
    if again(area, b, j) {
        Some(passed)
    } else {
        owner(area, b, j, keys, passed)
    }
}

// Whether each of n count rows from row b on is.
fn count_run(area: &[u64], b: usize, n: usize, keys: Runs) -> bool
    requires { (Table false 0 keys area.now) × (4 * (b + n) ≤ length area.now) }
    ensures { Says result ((j : ℕ) → j < n → CountSound keys b area.now j) }
{
    let mut passed = Runs { old: 0, new: 0 };
    for j in 0..n {
        match count_sound(area, b, j, keys, passed) {
            Some(p) => passed = p,
            None => return false,
        }
    }
    true
}

// Whether the table of counts is in order, its counts fit, and every row has its key.
fn counts_sound(area: &[u64], c: usize, used: Used) -> bool
    requires { (Table false 0 used.keys area.now) × (Lies c used.counts area.now) }
    ensures { Says result (CountsSound c used area.now) }
{
    count_run(area, c, used.counts.old, used.keys)
        && count_run(area, c + used.counts.old, used.counts.new, used.keys)
        && rows::tables::apart(area, c, used.counts, true)
}

// Both tables are in order, their counts fit, and every count row has its key.
pub fn tables_sound(area: &[u64], c: usize, used: Used) -> bool
    requires { Fits c area.now used }
    ensures { Says result (TablesSound (prints_of c area.now used)) }
{
    keys_sound(area, used.keys) && counts_sound(area, c, used)
}
