// Places of names, put in order by merging. A place is made a word first, so that most names are told apart by their words alone.
ghost use Rattle.std.specs.Prelude.{◌≡◌, cond, ◌+◌, ◌/◌, ◌^◌, ◌≤◌, ◌<◌, length};
ghost use Rattle.member_order.specs.Codes.{name_of, Coded, AllCoded};
ghost use Rattle.member_order.specs.Names.{name_in, order_of};
ghost use Rattle.member_order.specs.Order.{insert_all, ordered, run, Short, pick_by, Picks, Rising, Rewritten};

use crate::codes::{load, store};
use crate::compare::compare;
use std::cmp::Ordering;

// The next word of two runs, and how far each is read behind it.
#[derive(Clone, Copy)]
pub struct Picked {
    pub word: u64,
    pub i: usize,
    pub j: usize,
}

// How the names of two words with equal codes lie.
fn order_behind(names: &[u8], x: u64, y: u64) -> Ordering
    requires { Coded (name_in names.now) x × Coded (name_in names.now) y × (x / 65536 ≡ y / 65536) }
    ensures { result ≡ order_of (name_of (name_in names.now) x) (name_of (name_in names.now) y) }
{
    if x / 65536 % 256 == 0 {
        return Ordering::Equal;
    }
    compare(names, (x % 65536) as usize + 6, (y % 65536) as usize + 6)
}

// The one of two words with equal codes whose name comes first; of equal names the later one.
fn choose_named(names: &[u8], x: u64, y: u64, i: usize, j: usize) -> Picked
    requires { (i + 1 < 2 ^ 64) × (j + 1 < 2 ^ 64) × Coded (name_in names.now) x × Coded (name_in names.now) y × (x / 65536 ≡ y / 65536) }
    ensures { result ≡ pick_by (order_of (name_of (name_in names.now) x) (name_of (name_in names.now) y)) x y i j }
{
    match order_behind(names, x, y) {
        Ordering::Less => Picked {
            word: x,
            i: i + 1,
            j,
        },
        Ordering::Equal => Picked {
            word: y,
            i: i + 1,
            j: j + 1,
        },
        Ordering::Greater => Picked {
            word: y,
            i,
            j: j + 1,
        },
    }
}

// The same of any two words. Where their codes differ nothing branches on which is less: no processor foresees that.
fn choose(names: &[u8], x: u64, y: u64, i: usize, j: usize) -> Picked
    requires { (i + 1 < 2 ^ 64) × (j + 1 < 2 ^ 64) × Coded (name_in names.now) x × Coded (name_in names.now) y }
    ensures { result ≡ pick_by (order_of (name_of (name_in names.now) x) (name_of (name_in names.now) y)) x y i j }
{
    let c = x / 65536;
    let d = y / 65536;
    if c == d {
        return choose_named(names, x, y, i, j);
    }
    let word = if c < d { x } else { y };
    let step = usize::from(c < d);
    Picked {
        word,
        i: i + step,
        j: j + 1 - step,
    }
}

// Of two runs in order, the earlier a words from low on and the later b words from middle on, the next word.
fn pick(
    names: &[u8],
    words: &[u64],
    low: usize,
    a: usize,
    middle: usize,
    b: usize,
    i: usize,
    j: usize,
) -> Picked
    requires { (low + a ≤ length words.now) × (middle + b ≤ length words.now) × (i ≤ a) × (j ≤ b) × (i + j < a + b)
        × Rising (name_of (name_in names.now)) (run words.now low a) × Rising (name_of (name_in names.now)) (run words.now middle b)
        × AllCoded (name_in names.now) (run words.now low a) × AllCoded (name_in names.now) (run words.now middle b) }
    ensures { Picks (name_of (name_in names.now)) (run words.now low a) (run words.now middle b) i j result }
{
    if i == a {
        return Picked {
            word: words[middle + j],
            i,
            j: j + 1,
        };
    }
    let x = words[low + i];
    if j == b {
        return Picked {
            word: x,
            i: i + 1,
            j,
        };
    }
    choose(names, x, words[middle + j], i, j)
}

// The two runs merged, in front of merged; how many words that makes.
fn merge(
    names: &[u8],
    words: &[u64],
    merged: &mut [u64],
    low: usize,
    a: usize,
    middle: usize,
    b: usize,
) -> usize
    requires { (low + a ≤ length words.now) × (middle + b ≤ length words.now) × (a + b ≤ length merged.old)
        × Rising (name_of (name_in names.now)) (run words.now low a) × Rising (name_of (name_in names.now)) (run words.now middle b)
        × AllCoded (name_in names.now) (run words.now low a) × AllCoded (name_in names.now) (run words.now middle b) }
    ensures { (run merged.new 0 result
        ≡ insert_all (name_of (name_in names.now)) (run words.now low a) (run words.now middle b)) × (result ≤ a + b) }
{
    let mut i: usize = 0;
    let mut j: usize = 0;
    let mut count: usize = 0;
    // Two runs are read at once, each as far as the next word says: a `for` does not say it plainer.
    while i + j < a + b {
        let next = pick(names, words, low, a, middle, b, i, j);
        merged[count] = next.word;
        i = next.i;
        j = next.j;
        count += 1;
    }
    count
}

// The first n words of merged, from low on.
fn copy_back(merged: &[u64], words: &mut [u64], low: usize, n: usize)
    requires { (n ≤ length merged.now) × (low + n ≤ length words.old) }
    ensures { Rewritten words.old low n (run merged.now 0 n) words.new }
{
    // Word by word: `copy_from_slice` takes three in a hundred longer on objects of many short names.
    for i in 0..n {
        words[low + i] = merged[i];
    }
}

// Puts the two words from low on in the order of their names, of equal names the last; how many are left.
fn sort_pair(names: &[u8], words: &mut [u64], low: usize) -> usize
    requires { (low + 2 ≤ length words.old) × AllCoded (name_in names.now) (run words.old low 2) }
    ensures { Rewritten words.old low 2 (ordered (name_of (name_in names.now)) (run words.old low 2)) words.new
        × (result ≡ length (ordered (name_of (name_in names.now)) (run words.old low 2))) }
{
    let x = words[low];
    let y = words[low + 1];
    let next = choose(names, x, y, 0, 0);
    words[low] = next.word;
    if next.i == next.j {
        return 1;
    }
    words[low + 1] = if next.i == 1 { y } else { x };
    2
}

// Puts the n words from low on in the order of their names, of each name the last; how many are left.
#[cycle(sort_halves_sort_words)]
fn sort_words(names: &[u8], words: &mut [u64], merged: &mut [u64], low: usize, n: usize) -> usize
    requires { (low + n ≤ length words.old) × (n ≤ length merged.old) × AllCoded (name_in names.now) (run words.old low n) }
    ensures { Rewritten words.old low n (ordered (name_of (name_in names.now)) (run words.old low n)) words.new
        × (result ≡ length (ordered (name_of (name_in names.now)) (run words.old low n))) }
{
    if n < 2 {
        return n;
    }
    if n == 2 {
        return sort_pair(names, words, low);
    }
    sort_halves(names, words, merged, low, n)
}

// The same of more words: both halves in order, then merged.
#[cycle(sort_halves_sort_words)]
fn sort_halves(names: &[u8], words: &mut [u64], merged: &mut [u64], low: usize, n: usize) -> usize
    requires { (low + n ≤ length words.old) × (n ≤ length merged.old) × AllCoded (name_in names.now) (run words.old low n) × (2 ≤ n) }
    ensures { Rewritten words.old low n (ordered (name_of (name_in names.now)) (run words.old low n)) words.new
        × (result ≡ length (ordered (name_of (name_in names.now)) (run words.old low n))) }
{
    let half = n / 2;
    let a = sort_words(names, words, merged, low, half);
    let b = sort_words(names, words, merged, low + half, n - half);
    let count = merge(names, words, merged, low, a, low + half, b);
    copy_back(merged, words, low, count);
    count
}

// Puts the n places from low on in the order of their names, of each name the last; how many are left.
pub fn sort(names: &[u8], places: &mut [u64], merged: &mut [u64], low: usize, n: usize) -> usize
    requires { (low + n ≤ length places.old) × (n ≤ length merged.old) × Short (run places.old low n) }
    ensures { Rewritten places.old low n (ordered (name_in names.now) (run places.old low n)) places.new
        × (result ≡ length (ordered (name_in names.now) (run places.old low n))) }
{
    load(names, places, low, n);
    let count = sort_words(names, places, merged, low, n);
    store(places, low, count);
    count
}
