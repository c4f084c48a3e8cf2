// Whether any words are a sound store.
#![tactic(auto)]

ghost use Rattle.std.specs.Prelude.{◌≡◌, true, ◌≤◌, length, MatchResult};
ghost use Rattle.rules.specs.Quantities.{in_range, words_needed};
ghost use Rattle.rules.specs.Sound.{TablesSound};
ghost use Rattle.words.specs.Words.{Says};
ghost use Rattle.rows.specs.Tables.{size};
ghost use Rattle.store.specs.Store.{market_of, Sized, Sound};
ghost use Rattle.store.specs.Moves.{Counts};
ghost use Rattle.store.specs.ConnMoves.{LineAt};
ghost use Rattle.sound.specs.Parts.{FewNew, Ranged, Above, SoundAt, EachSound, ItemsFit};

use rows::Runs;
use rules::{Limits, Refusal};

// The largest event number.
const MAX_NUMBER: u64 = u64::MAX;

// Whether limits are in range.
pub fn in_range(l: Limits) -> bool
    ensures { result ≡ in_range l }
{
    let lines = (1 <= l.L) & (l.L <= 16);
    let held = (1 <= l.H) & (l.H <= 5000);
    let events = (1 <= l.G) & (l.G <= 1048576);
    let keys = (1 <= l.C) & (l.C <= 65536);
    let pairs = (1 <= l.D) & (l.D <= 65536);
    lines & held & events & keys & pairs
}

// How many words a store of these limits needs.
pub fn words_needed(l: Limits) -> u64
    requires { in_range l ≡ true }
    ensures { result ≡ words_needed l }
{
    64 + l.L * (7 * l.H + 64) + 3 * l.G + 4 * l.C + 4 * l.D
}

// Whether neither table has more new rows than it may.
fn few_new(s: &[u64]) -> bool
    requires { 64 ≤ length s.now }
    ensures { Says result (FewNew s.now) }
{
    let used = store::tables::used(s);
    used.keys.new <= rows::MOST_NEW && used.counts.new <= rows::MOST_NEW
}

// Whether the words are of this layout, with the front below G, with few new rows, and long enough for their limits, which are
// in range.
fn sized(s: &[u64]) -> bool
    ensures { Says result (Ranged s.now) }
{
    if s.len() < 64 {
        return false;
    }
    if store::layout(s) != store::LAYOUT {
        return false;
    }
    let l = store::entries::limits(s);
    if !in_range(l) {
        return false;
    }
    if (s.len() as u64) < words_needed(l) {
        return false;
    }
    if l.G <= store::entries::front(s) as u64 {
        return false;
    }
    few_new(s)
}

// Whether a table's rows are at most so many.
fn within(u: Runs, limit: u64) -> bool
    ensures { Says result (size u ≤ limit) }
{
    u.old as u64 <= limit && u.new as u64 <= limit - u.old as u64
}

// Whether the header's counts are within the limits.
fn counted(s: &[u64]) -> bool
    requires { Sized s.now }
    ensures { Says result (Counts s.now) }
{
    let l = store::entries::limits(s);
    let head = store::entries::head(s);
    let count = head.count as u64;
    let lines = store::conns::count(s) as u64;
    let used = store::tables::used(s);
    count <= l.G
        && head.base <= MAX_NUMBER - count
        && lines <= l.L
        && within(used.keys, l.C)
        && within(used.counts, l.D)
}

// Whether the print tables are sound.
fn tables_sound(s: &[u64]) -> bool
    requires { (Sized s.now) × (Counts s.now) }
    ensures { Says result (TablesSound (market_of s.now).prints) }
{
    let c = store::entries::limits(s).C as usize;
    prints::sound::tables_sound(store::tables::area(s), c, store::tables::used(s))
}

// Whether the i-th connection is above the one before it.
fn above(s: &[u64], i: usize) -> bool
    requires { LineAt s.now i }
    ensures { Says result (Above s.now i) }
{
    i == 0 || store::conns::conn_at(s, i - 1) < store::conns::conn_at(s, i)
}

// Whether the i-th line is sound over a log that ends at `end`, and above the one before it.
fn line_sound(s: &[u64], i: usize, end: u64) -> bool
    requires { LineAt s.now i }
    ensures { Says result (SoundAt s.now end i) }
{
    let h = store::conns::held_limit(s);
    above(s, i) && lines::area::sound(store::conns::line_words(s, i), h, end)
}

// Whether each line is, over the log's end.
fn lines_sound(s: &[u64]) -> bool
    requires { (Sized s.now) × (Counts s.now) }
    ensures { Says result (EachSound s.now) }
{
    let end = store::entries::end(s);
    for i in 0..store::conns::count(s) {
        if !line_sound(s, i, end) {
            return false;
        }
    }
    true
}

// Whether the log, with all held items behind it, stays within the event limit and the numbers.
fn items_fit(s: &[u64]) -> bool
    requires { (Sized s.now) × ((Counts s.now) × (EachSound s.now)) }
    ensures { Says result (ItemsFit s.now) }
{
    let l = store::entries::limits(s);
    let all = store::entries::count(s) as u64 + store::conns::held_items(s) as u64;
    all <= l.G && all <= MAX_NUMBER - store::entries::base(s)
}

// Whether the words are a sound store.
pub fn is_sound(s: &[u64]) -> bool
    ensures { Says result (Sound s.now) }
{
    sized(s) && counted(s) && tables_sound(s) && lines_sound(s) && items_fit(s)
}

// Refuses words that are no sound store.
pub fn check(s: &[u64]) -> Result<(), Refusal>
    ensures { MatchResult result
        (λ done. Sound s.now)
        (λ e. (e ≡ Refusal.Unsound) × (Sound s.now → ⊥)) }
{
    if is_sound(s) {
        Ok(())
    } else {
        Err(Refusal::Unsound)
    }
}
