// A line's held items, and the place where a pending line's held events line up with the log.
#![tactic(auto)]

ghost use Rattle.std.specs.Prelude.{◌≡◌, not, [], ◌∷◌, ◌++◌, map, ◌+◌, ◌*◌, ◌≤◌, length, drop, leb};
ghost use Rattle.rules.specs.Quantities.{align_run};
ghost use Rattle.rules.specs.Lists.{any, index, nil};
ghost use Rattle.rules.specs.Lines.{events, event_keys, is_snapshot, snapshot_of, message_of};
ghost use Rattle.rules.specs.Place.{alignment as aligned};
ghost use Rattle.words.specs.Words.{over};
ghost use Rattle.event_log.specs.Log.{keys_of, Ring};
ghost use Rattle.place.specs.Items.{item_in, items_in, is_event, place_of, Room, Counted, first_at, first_of, Passed};

use event_log::Head;
use log_borrowed::view::LogView;
use rules::{EventKey, Item};

// The kind word of an event; a snapshot's is one more than its token.
const EVENT: u64 = 0;
// Held events that match the log this many in a row make a place count.
const ALIGN_RUN: usize = 4;

// The held events from this one on are the log's from this number on.
#[derive(Clone, Copy, Debug, PartialEq, Eq)]
pub struct Place {
    pub event: usize,
    pub number: u64,
}

// The i-th held item.
pub fn item_at(items: &[u64], i: usize) -> Item
    requires { 4 * i + 4 ≤ length items.now }
    ensures { result ≡ item_in items.now i }
{
    let at = 4 * i;
    let kind = items[at];
    let message = items[at + 3];
    if kind == EVENT {
        Item::Event(EventKey(items[at + 1], items[at + 2]), message)
    } else {
        Item::Snapshot(kind - 1, message)
    }
}

// Holds an item behind the first i.
pub fn put_item(items: &mut [u64], i: usize, item: Item)
    requires { Room items.old i item }
    ensures { items_in (i + 1) items.new ≡ items_in i items.old ++ (item ∷ []) }
{
    let at = 4 * i;
    let row = match item {
        Item::Snapshot(token, message) => [token + 1, 0, 0, message],
        Item::Event(key, message) => [EVENT, key.0, key.1, message],
    };
    items[at..at + 4].copy_from_slice(&row);
}

// The first item from `from` on that is an event; held where there is none, which is where a walk along the items ends.
// Counted by hand for speed: with a `for` one_place takes up to 8 % more instructions over a long match.
fn next_event(items: &[u64], held: usize, from: usize) -> usize
    requires { (4 * held ≤ length items.now) × (from ≤ held) }
    ensures { result ≡ from + index is_event (drop from (items_in held items.now)) }
{
    let mut i = from;
    while i < held && items[4 * i] != EVENT {
        i += 1;
    }
    i
}

// Whether any event is held.
pub fn holds_event(items: &[u64], held: usize) -> bool
    requires { 4 * held ≤ length items.now }
    ensures { result ≡ not (nil (events (items_in held items.now))) }
{
    next_event(items, held, 0) < held
}

// How many of the first n items are events.
pub fn count_events(items: &[u64], n: usize) -> usize
    requires { 4 * n ≤ length items.now }
    ensures { result ≡ length (events (items_in n items.now)) }
{
    let mut count = 0;
    for i in 0..n {
        if items[4 * i] == EVENT {
            count += 1;
        }
    }
    count
}

// Writes the first n items' messages to the front of a list.
pub fn put_messages(items: &[u64], n: usize, list: &mut [u64])
    requires { (4 * n ≤ length items.now) × (n ≤ length list.old) }
    ensures { list.new ≡ over (map message_of (items_in n items.now)) list.old }
{
    for i in 0..n {
        list[i] = items[4 * i + 3];
    }
}

// Whether any snapshot is held.
pub fn holds_snapshot(items: &[u64], held: usize) -> bool
    requires { 4 * held ≤ length items.now }
    ensures { result ≡ any is_snapshot (items_in held items.now) }
{
    for i in 0..held {
        if items[4 * i] != EVENT {
            return true;
        }
    }
    false
}

// Whether a snapshot of token t is held.
pub fn holds_token(items: &[u64], held: usize, t: u64) -> bool
    requires { 4 * held ≤ length items.now }
    ensures { result ≡ any (snapshot_of t) (items_in held items.now) }
{
    for i in 0..held {
        if matches!(item_at(items, i), Item::Snapshot(token, _) if token == t) {
            return true;
        }
    }
    false
}

// Passes over entries, eight at a time, while no key among them has the first word k.
// By hand for speed: one test of the count for eight entries keeps the search of a long log fast (docs/SPEED.md); a `for` makes one for each.
fn pass_eights(keys: &[u64], count: usize, from: usize, k: u64) -> usize
    requires { (2 * count ≤ length keys.now) × (from ≤ count) }
    ensures { Passed (first_at keys.now) count k from result }
{
    let mut i = from;
    while 8 <= count - i {
        let p = 2 * i;
        if keys[p] == k
            || keys[p + 2] == k
            || keys[p + 4] == k
            || keys[p + 6] == k
            || keys[p + 8] == k
            || keys[p + 10] == k
            || keys[p + 12] == k
            || keys[p + 14] == k
        {
            return i;
        }
        i += 8;
    }
    i
}

// The first key from `from` on that has the first word k; count where there is none.
fn next_key(keys: &[u64], count: usize, from: usize, k: u64) -> usize
    requires { (2 * count ≤ length keys.now) × (from ≤ count) }
    ensures { Passed (first_at keys.now) count k from result }
{
    for i in pass_eights(keys, count, from, k)..count {
        if keys[2 * i] == k {
            return i;
        }
    }
    count
}

// The first entry from `from` on whose key has the first word k; count where there is none.
// The ring is at most two straight pieces: from the front to the area's end, and from the area's start.
fn next_entry(keys: &[u64], g: usize, front: usize, count: usize, from: usize, k: u64) -> usize
    requires { (Ring g front count keys.now) × (from ≤ count) }
    ensures { Passed (first_of g front keys.now) count k from result }
{
    let ahead = g - front;
    if count <= ahead {
        return next_key(keys, front + count, front + from, k) - front;
    }
    if ahead <= from {
        return next_key(keys, count - ahead, from - ahead, k) + ahead;
    }
    let p = next_key(keys, g, front + from, k);
    if p < g {
        return p - front;
    }
    next_key(keys, count - ahead, 0, k) + ahead
}

// Where the held events line up with the log: the one place that counts, if exactly one does.
fn one_place(
    keys: &[u64],
    g: usize,
    head: Head,
    items: &[u64],
    held: usize,
    quiet: bool,
) -> Option<Place>
    requires { Counted g head keys.now items.now held }
    ensures { result ≡ place_of head.base (aligned quiet (event_keys (items_in held items.now))
        (keys_of g head.front head.count keys.now)) }
{
    let Head {
        base,
        count,
        front,
        ..
    } = head;
    if count == 0 {
        return None;
    }
    let first = next_event(items, held, 0);
    if first >= held {
        return None;
    }
    let log = LogView {
        keys,
        base,
        count,
        front,
        g,
    };
    let mut found = None;
    // The next candidate: the first held event at entry q; past the log's end the j-th, item x, at entry 0.
    // Where the first words of the two keys differ there is no candidate.
    let lead = keys[2 * front];
    let mut q = next_entry(keys, g, front, count, 0, items[4 * first + 1]);
    let mut x = next_event(items, held, first + 1);
    let mut j: usize = 1;
    // Neither loop goes by one index: the items and the log's entries are walked together, each as far as the keys agree.
    'places: loop {
        // This candidate: the held events from item i on, the cj-th and later, against the log from entry l on.
        let mut i = first;
        let mut l = q;
        let mut cj: usize = 0;
        if q < count {
            q = next_entry(keys, g, front, count, q + 1, items[4 * first + 1]);
        } else {
            if x >= held {
                break 'places;
            }
            i = x;
            l = 0;
            cj = j;
            x = next_event(items, held, x + 1);
            j += 1;
            if items[4 * i + 1] != lead {
                continue 'places;
            }
        }
        let start = l;
        while i < held {
            let key = EventKey(items[4 * i + 1], items[4 * i + 2]);
            match log.match_at(base + l as u64, key) {
                Some(true) => {
                    l += 1;
                    i = next_event(items, held, i + 1);
                }
                Some(false) => continue 'places,
                None => break,
            }
        }
        let run = l - start >= ALIGN_RUN;
        let level = quiet & (l == count) & (i == held);
        if !(run | level) {
            continue 'places;
        }
        if found.is_some() {
            found = None;
            break 'places;
        }
        found = Some(Place {
            event: cj,
            number: base + start as u64,
        });
    }
    found
}

// Whether as many events are held as make a place count.
fn holds_run(items: &[u64], held: usize) -> bool
    requires { 4 * held ≤ length items.now }
    ensures { result ≡ leb align_run (length (event_keys (items_in held items.now))) }
{
    let mut n = 0;
    for i in 0..held {
        if items[4 * i] == EVENT {
            n += 1;
            if n == ALIGN_RUN {
                return true;
            }
        }
    }
    false
}

// The same; with fewer events held than make a place count, only a quiet market has a place.
pub fn alignment(
    keys: &[u64],
    g: usize,
    head: Head,
    items: &[u64],
    held: usize,
    quiet: bool,
) -> Option<Place>
    requires { Counted g head keys.now items.now held }
    ensures { result ≡ place_of head.base (aligned quiet (event_keys (items_in held items.now))
        (keys_of g head.front head.count keys.now)) }
{
    if quiet || holds_run(items, held) {
        one_place(keys, g, head, items, held, quiet)
    } else {
        None
    }
}
