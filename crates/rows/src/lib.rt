// Rows of four words in a lent slice, in rising order by two words or by three: n rows of the slice from row b on.
#![tactic(auto)]

pub mod removal;
pub mod tables;

ghost use Rattle.std.specs.Prelude.{◌≡◌, true, ◌+◌, ◌-◌, ◌*◌, ◌≤◌, ◌<◌, length};
ghost use Rattle.rows.specs.Rows.{row, row_at, row_in, below, alike, Rises, LooksFrom, Lower, Located, Put, Shifted};
ghost use Rattle.words.specs.Words.{Says};

// Where a row stands, or, as `Err`, the gap before the row where it would stand: as `binary_search` answers.
pub type Place = Result<usize, usize>;

// The most new rows that a table may have.
pub const MOST_NEW: usize = 512;

// The words of the row that is looked for, in a table in order by two of them or by all three.
#[derive(Clone, Copy, Debug, PartialEq, Eq)]
pub struct RowKey {
    pub three: bool,
    pub x: u64,
    pub y: u64,
    pub z: u64,
}

// A table in two runs: how many rows stand in order, and how many new ones behind them, in order by themselves.
#[derive(Clone, Copy, Debug, PartialEq, Eq)]
pub struct Runs {
    pub old: usize,
    pub new: usize,
}

// A table that has got a row, and where that row stands.
#[derive(Clone, Copy, Debug, PartialEq, Eq)]
pub struct Added {
    pub runs: Runs,
    pub at: usize,
}

// Row i is below the words given.
#[tactic(auto, unfolding(crate::specs::Rows::row_at))]
fn less(t: &[u64], i: usize, key: RowKey) -> bool
    requires { 4 * i + 3 < length t.now }
    ensures { result ≡ below key.three (row_at t.now i) key.x key.y key.z }
{
    let p = 4 * i;
    let a = t[p];
    a < key.x
        || a == key.x && (t[p + 1] < key.y || t[p + 1] == key.y && key.three && t[p + 2] < key.z)
}

// Row i is the row of the words given.
#[tactic(auto, unfolding(crate::specs::Rows::row_at))]
pub fn same(t: &[u64], i: usize, key: RowKey) -> bool
    requires { 4 * i + 3 < length t.now }
    ensures { result ≡ alike key.three (row_at t.now i) key.x key.y key.z }
{
    let p = 4 * i;
    t[p] == key.x && t[p + 1] == key.y && (!key.three || t[p + 2] == key.z)
}

// Row i of the table is its first, or above the row before it.
pub fn rises(t: &[u64], b: usize, i: usize, three: bool) -> bool
    requires { 4 * (b + i) + 3 < length t.now }
    ensures { Says result (Rises three b t.now i) }
{
    if i == 0 {
        return true;
    }
    let p = 4 * (b + i);
    let (x, y, z) = (t[p], t[p + 1], t[p + 2]);
    less(t, b + (i - 1), RowKey { three, x, y, z })
}

// Rows from lo on, so many, among which a search looks first.
#[derive(Clone, Copy)]
struct Window {
    lo: usize,
    len: usize,
}

// Where among n rising rows to look first for one whose first word is x: that word is a hash, so it tells about where the row stands.
fn look_at(t: &[u64], b: usize, n: usize, x: u64) -> Window
    requires { 4 * (b + n) ≤ length t.now }
    ensures { LooksFrom (row_in b t.now) n x result.lo result.len }
{
    let all = Window { lo: 0, len: n };
    if n < 128 || 65_536 < n {
        return all;
    }
    let part = x / 4_294_967_296;
    let guess = (part * n as u64 / 4_294_967_296) as usize;
    let margin = 32 + n / 32;
    if n < guess + margin {
        return all;
    }
    if guess < margin {
        return Window {
            lo: 0,
            len: guess + margin,
        };
    }
    if t[4 * (b + (guess - margin))] < x {
        return Window {
            lo: guess - margin + 1,
            len: 2 * margin - 1,
        };
    }
    all
}

// A row up to which the first words are below x, by halving.
fn first_below(t: &[u64], b: usize, n: usize, x: u64) -> usize
    requires { 4 * (b + n) ≤ length t.now }
    ensures { LooksFrom (row_in b t.now) n x result 0 }
{
    let Window { mut lo, mut len } = look_at(t, b, n, x);
    // By hand: the rows are words of a lent slice, and `partition_point` searches a slice of rows.
    while 1 < len {
        let half = len / 2;
        if t[4 * (b + (lo + half - 1))] < x {
            lo += half;
        }
        len -= half;
    }
    lo
}

// How many of n rising rows are below the words given, where i of them are: by halving.
fn halve(t: &[u64], b: usize, n: usize, i: usize, key: RowKey) -> usize
    requires n_in_bounds { (4 * (b + n) ≤ length t.now) × (i ≤ n) }
    requires key_value { 0 < i → below key.three (row_in b t.now (i - 1)) key.x key.y key.z ≡ true }
    ensures { Lower key.three (row_in b t.now) n key.x key.y key.z result }
{
    let mut lo = i;
    let mut hi = n;
    // By hand, as above.
    while lo < hi {
        let mid = lo + (hi - lo) / 2;
        if less(t, b + mid, key) {
            lo = mid + 1;
        } else {
            hi = mid;
        }
    }
    lo
}

// How many of n rising rows are below the words given, where i of them are: counted on from there.
fn climb(t: &[u64], b: usize, n: usize, i: usize, key: RowKey) -> usize
    requires n_in_bounds { (4 * (b + n) ≤ length t.now) × (i ≤ n) }
    requires key_value { 0 < i → below key.three (row_in b t.now (i - 1)) key.x key.y key.z ≡ true }
    ensures { Lower key.three (row_in b t.now) n key.x key.y key.z result }
{
    for j in i..n {
        if !less(t, b + j, key) {
            return j;
        }
    }
    n
}

// How many of n rising rows are below the words given.
pub fn lower(t: &[u64], b: usize, n: usize, key: RowKey) -> usize
    requires { 4 * (b + n) ≤ length t.now }
    ensures { Lower key.three (row_in b t.now) n key.x key.y key.z result }
{
    let i = first_below(t, b, n, key.x);
    if i + 16 < n && less(t, b + (i + 16), key) {
        return halve(t, b, n, i + 17, key);
    }
    climb(t, b, n, i, key)
}

// Row i, before which all are below the words given and which is not, is theirs, or they have their gap before it.
fn place_at(t: &[u64], b: usize, n: usize, i: usize, key: RowKey) -> Place
    requires n_in_bounds { 4 * (b + n) ≤ length t.now }
    requires i_place { Lower key.three (row_in b t.now) n key.x key.y key.z i }
    ensures { Located key.three (row_in b t.now) n key.x key.y key.z result }
{
    if i < n && same(t, b + i, key) {
        Ok(i)
    } else {
        Err(i)
    }
}

// Where the row of the words given stands among n rising rows, or would stand.
fn locate(t: &[u64], b: usize, n: usize, key: RowKey) -> Place
    requires { 4 * (b + n) ≤ length t.now }
    ensures { Located key.three (row_in b t.now) n key.x key.y key.z result }
{
    place_at(t, b, n, lower(t, b, n, key), key)
}

// The same, where i of the rows are below the words: along the rows if it is near.
pub fn seek(t: &[u64], b: usize, n: usize, i: usize, key: RowKey) -> Place
    requires n_in_bounds { (4 * (b + n) ≤ length t.now) × (i ≤ n) }
    requires key_value { 0 < i → below key.three (row_in b t.now (i - 1)) key.x key.y key.z ≡ true }
    ensures { Located key.three (row_in b t.now) n key.x key.y key.z result }
{
    if i + 16 < n && less(t, b + (i + 16), key) {
        return locate(t, b, n, key);
    }
    place_at(t, b, n, climb(t, b, n, i, key), key)
}

// Row i becomes the words given.
pub fn put_row(t: &mut [u64], i: usize, x: u64, y: u64, z: u64, u: u64)
    requires { 4 * i + 3 < length t.old }
    ensures { Put t.old t.new i (row x y z u) }
{
    let p = 4 * i;
    t[p..p + 4].copy_from_slice(&[x, y, z, u]);
}

// Row `to` becomes row `from`.
pub fn copy_row(t: &mut [u64], from: usize, to: usize)
    requires { (4 * from + 3 < length t.old) × (4 * to + 3 < length t.old) }
    ensures { Put t.old t.new to (row_at t.old from) }
{
    let p = 4 * from;
    let (x, y, z, u) = (t[p], t[p + 1], t[p + 2], t[p + 3]);
    put_row(t, to, x, y, z, u)
}

// The rows from i to n move up by d.
pub fn shift(t: &mut [u64], i: usize, n: usize, d: usize)
    requires { (i ≤ n) × (4 * (n + d) ≤ length t.old) }
    ensures { Shifted t.old t.new i n d }
{
    for j in (i..n).rev() {
        copy_row(t, j, j + d);
    }
}
