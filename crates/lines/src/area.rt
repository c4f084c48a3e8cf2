// A line's area in a lent store: its header, its items and its held prints.
ghost use Rattle.std.specs.Prelude.{◌≡◌, [], ◌∷◌, ◌++◌, ℕ, ◌+◌, ◌*◌, ◌≤◌, ◌<◌, ◌^◌, length, get_or, set};
ghost use Rattle.rules.specs.Quantities.{same, key};
ghost use Rattle.rules.specs.Lines.{waiting, with_line, with_held};
ghost use Rattle.rules.specs.Lists.{any, Each};
ghost use Rattle.rules.specs.Sound.{Known};
ghost use Rattle.words.specs.Words.{back, Says};
ghost use Rattle.place.specs.Items.{kind_of, items_in};
ghost use Rattle.lines.specs.Line.{line_of, held_of, holding};
ghost use Rattle.lines.specs.Area.{stamp_in, line_in, line_words, head_line, print_in, prints_in, item_words, print_count, no_print};
ghost use Rattle.lines.specs.Area.{conn_of, Fit, TwoAreas, Enough, AreaCopied};
ghost use Rattle.lines.specs.AreaSound.{LineFits, AreaSound};

use crate::Line;
use rules::{EventKey, Item};

// An area's connection.
pub fn conn(area: &[u64]) -> u64
    requires { 32 ≤ length area.now }
    ensures { (h : ℕ) → result ≡ (conn_of h area.now).conn }
{
    area[0]
}

// An area's limit: with so many items or prints its line fails.
pub fn limit(area: &[u64]) -> usize
    requires { 32 ≤ length area.now }
    ensures { (h : ℕ) → result ≡ (conn_of h area.now).limit }
{
    area[10] as usize
}

// The line that eight words say.
fn line_of(head: &[u64]) -> Line
    requires { length head.now ≡ 8 }
    ensures { result ≡ line_in head.now }
{
    let items = head[1] as usize;
    let since = head[2];
    match head[0] {
        0 => Line::Waiting { items, since },
        1 => Line::Pending {
            items,
            snapshot: stamp(head[3], head[4]),
            since,
        },
        2 => Line::InLine {
            next: head[5],
            due0: head[6] != 0,
            due1: head[7] != 0,
        },
        _ => Line::Failed,
    }
}

// A time with its flag: none where that is 0.
pub fn stamp(flag: u64, t: u64) -> Option<u64>
    ensures { result ≡ stamp_in flag t }
{
    if flag == 0 { None } else { Some(t) }
}

// An area's line.
pub fn line(area: &[u64]) -> Line
    requires { 32 ≤ length area.now }
    ensures { result ≡ head_line area.now }
{
    line_of(&area[1..9])
}

// The words of a line.
fn put_line(head: &mut [u64], line: Line)
    requires { length head.old ≡ 8 }
    ensures { head.new ≡ line_words line }
{
    let words = match line {
        Line::Waiting { items, since } => [0, items as u64, since, 0, 0, 0, 0, 0],
        Line::Pending {
            items,
            snapshot,
            since,
        } => [
            1,
            items as u64,
            since,
            u64::from(snapshot.is_some()),
            snapshot.unwrap_or(0),
            0,
            0,
            0,
        ],
        Line::InLine { next, due0, due1 } => [
            2,
            0,
            0,
            0,
            0,
            next,
            u64::from(due0),
            u64::from(due1),
        ],
        Line::Failed => [3, 0, 0, 0, 0, 0, 0, 0],
    };
    head.copy_from_slice(&words);
}

// Gives an area another line; its items and held prints stay.
pub fn set_line(area: &mut [u64], line: Line)
    requires { 32 ≤ length area.old }
    ensures { area.new ≡ back 1 9 (line_words line) area.old }
{
    put_line(&mut area[1..9], line)
}

// The words of the items.
pub fn items(area: &[u64], h: usize) -> &[u64]
    requires { 4 * h + 64 ≤ length area.now }
    ensures { result.now ≡ item_words h area.now }
{
    &area[32..4 * h + 64]
}

// Holds an item behind the others.
pub fn hold_item(area: &mut [u64], h: usize, item: Item)
    requires { (Fit h area.old) × ((held_of (head_line area.old) < h + 8) × (kind_of item < 2 ^ 64)) }
    ensures { conn_of h area.new ≡ with_line (holding item (conn_of h area.old).line) (conn_of h area.old) }
{
    let line = line(area);
    place::put_item(&mut area[32..4 * h + 64], line.held(), item);
    set_line(area, line.more());
}

// How many prints the line holds.
pub fn prints_held(area: &[u64]) -> usize
    requires { 32 ≤ length area.now }
    ensures { result ≡ print_count area.now }
{
    area[9] as usize
}

// Whether the i-th print has this key.
fn has_key(prints: &[u64], i: usize, key: EventKey) -> bool
    requires { 3 * i + 2 < length prints.now }
    ensures { result ≡ same (print_in prints.now i).0 key }
{
    EventKey(prints[3 * i], prints[3 * i + 1]) == key
}

// Whether a print of this key is among the first n.
fn among(prints: &[u64], n: usize, key: EventKey) -> bool
    requires { 3 * n ≤ length prints.now }
    ensures { result ≡ any (λ p. same p.0 key) (prints_in n prints.now) }
{
    for i in 0..n {
        if has_key(prints, i, key) {
            return true;
        }
    }
    false
}

// Whether the line holds a print of this key.
pub fn holds_print(area: &[u64], h: usize, key: EventKey) -> bool
    requires { Fit h area.now }
    ensures { result ≡ any (λ p. same p.0 key) (conn_of h area.now).held }
{
    among(&area[4 * h + 64..7 * h + 64], prints_held(area), key)
}

#[derive(Clone, Copy, Debug, PartialEq, Eq)]
pub struct HeldPrint {
    pub key: EventKey,
    pub message: u64,
}

// The i-th of some prints.
fn print_in(prints: &[u64], i: usize) -> HeldPrint
    requires { 3 * i + 2 < length prints.now }
    ensures { (result.key, result.message) ≡ print_in prints.now i }
{
    let p = 3 * i;
    HeldPrint {
        key: EventKey(prints[p], prints[p + 1]),
        message: prints[p + 2],
    }
}

// The i-th held print.
pub fn print_at(area: &[u64], h: usize, i: usize) -> HeldPrint
    requires { (Fit h area.now) × (i < print_count area.now) }
    ensures { (result.key, result.message) ≡ get_or (conn_of h area.now).held i no_print }
{
    print_in(&area[4 * h + 64..7 * h + 64], i)
}

// Gives an area another count of held prints.
fn set_prints(area: &mut [u64], n: usize)
    requires { 32 ≤ length area.old }
    ensures { area.new ≡ set area.old 9 n }
{
    area[9] = n as u64;
}

// A print behind the first n.
fn put_print(prints: &mut [u64], n: usize, key: EventKey, message: u64)
    requires { 3 * n + 3 ≤ length prints.old }
    ensures { prints_in (n + 1) prints.new ≡ prints_in n prints.old ++ ((key, message) ∷ []) }
{
    let at = 3 * n;
    prints[at..at + 3].copy_from_slice(&[key.0, key.1, message]);
}

// Holds a print behind the others.
pub fn hold_print(area: &mut [u64], h: usize, key: EventKey, message: u64)
    requires { (Fit h area.old) × (print_count area.old < h) }
    ensures { conn_of h area.new ≡ with_held ((conn_of h area.old).held ++ ((key, message) ∷ [])) (conn_of h area.old) }
{
    let n = prints_held(area);
    put_print(&mut area[4 * h + 64..7 * h + 64], n, key, message);
    set_prints(area, n + 1);
}

// Lets the held prints go.
pub fn drop_prints(area: &mut [u64], h: usize)
    requires { length area.old ≡ 7 * h + 64 }
    ensures { conn_of h area.new ≡ with_held [] (conn_of h area.old) }
{
    set_prints(area, 0);
}

// Writes an area anew: Waiting, empty, since t, with this limit.
pub fn put_waiting(area: &mut [u64], conn: u64, limit: u64, t: u64)
    requires { 32 ≤ length area.old }
    ensures { (h : ℕ) → conn_of h area.new ≡ waiting conn limit t }
{
    area[0] = conn;
    area[10] = limit;
    set_line(area, Line::waiting(t));
    set_prints(area, 0);
}

// How many of the items' words the line's items are: all where it counts more than an area has.
fn item_words_used(area: &[u64], h: usize) -> usize
    requires { length area.now ≡ 7 * h + 64 }
    ensures { Enough (4 * held_of (head_line area.now)) (4 * h + 32) result }
{
    4 * line(area).held().min(h + 8)
}

// How many of the held prints' words they are, likewise.
fn print_words_used(area: &[u64], h: usize) -> usize
    requires { length area.now ≡ 7 * h + 64 }
    ensures { Enough (3 * print_count area.now) (3 * h) result }
{
    3 * prints_held(area).min(h)
}

// Copies the area at `from` to the place `to`: of its words those that say something.
pub fn copy(s: &mut [u64], h: usize, from: usize, to: usize)
    requires { TwoAreas h from to s.old }
    ensures { AreaCopied h from to s.old s.new }
{
    let e = from + (7 * h + 64);
    let items = item_words_used(&s[from..e], h);
    let prints = print_words_used(&s[from..e], h);
    words::copy(s, from, to, 11);
    words::copy(s, from + 32, to + 32, items);
    let p = 4 * h + 64;
    words::copy(s, from + p, to + p, prints);
}

// Whether n items fit the area, and their tokens are known.
fn items_sound(items: &[u64], n: usize, h: usize) -> bool
    requires { length items.now ≡ 4 * h + 32 }
    ensures { Says result ((n ≤ h + 8) × Each Known (items_in n items.now)) }
{
    if h + 8 < n {
        return false;
    }
    for i in 0..n {
        if 2 < items[4 * i] {
            return false;
        }
    }
    true
}

// Whether the line's counts, tokens and next number are those of a sound store whose log ends at `end`.
fn line_sound(items: &[u64], line: Line, h: usize, end: u64) -> bool
    requires { length items.now ≡ 4 * h + 32 }
    ensures { Says result (LineFits h end (line_of line items.now)) }
{
    match line {
        Line::Waiting { items: n, .. } | Line::Pending { items: n, .. } => items_sound(items, n, h),
        Line::InLine { next, .. } => next <= end,
        Line::Failed => true,
    }
}

// Whether an area is one of a sound store whose log ends at `end`.
pub fn sound(area: &[u64], h: usize, end: u64) -> bool
    requires { length area.now ≡ 7 * h + 64 }
    ensures { Says result (AreaSound h end area.now) }
{
    if 3 < area[1] {
        return false;
    }
    let limit = area[10] as usize;
    if h < area[9] as usize {
        return false;
    }
    if limit == 0 {
        return false;
    }
    if h < limit {
        return false;
    }
    let e = 4 * h + 64;
    line_sound(&area[32..e], line(area), h, end)
}
