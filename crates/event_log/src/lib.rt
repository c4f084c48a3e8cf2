// The log: an area of 3g words (g keys of two words each, then g times) that is a ring, and a head.
#![tactic(auto)]

ghost use Rattle.std.specs.Prelude.{◌≡◌, List, ℕ, ◌+◌, ◌*◌, ◌≤◌, ◌<◌, ◌^◌, length, get_or, leb};
ghost use Rattle.rules.specs.Quantities.{age, log_keep};
ghost use Rattle.rules.specs.Log.{stamp, prune, old};
ghost use Rattle.event_log.specs.Log.{entry_place, key_in, log_of, Fit, put};
ghost use Rattle.event_log.specs.Answers.{quiet_stamp};

use rules::EventKey;

// An entry older than this leaves the log.
const LOG_KEEP: u64 = 10_000;
// Quiet from this age on.
const QUIET: u64 = 1_000;

// The number of the first entry, how many entries there are, last-applied, and the first entry's place.
#[derive(Clone, Copy, Debug, PartialEq, Eq)]
pub struct Head {
    pub base: u64,
    pub count: usize,
    pub last: Option<u64>,
    pub front: usize,
}

// The place of entry i: front plus i, less g where that reaches g.
pub fn place(g: usize, front: usize, i: usize) -> usize
    requires { (front < g) × ((i ≤ g) × (2 * g < 2 ^ 64)) }
    ensures { (result ≡ entry_place g front i) × (result < g) }
{
    let p = front + i;
    if p < g { p } else { p - g }
}

// Writes entry i: the two words of its key, and its time.
pub fn put(area: &mut [u64], g: usize, front: usize, i: usize, key: EventKey, t: u64)
    requires { (length area.old ≡ 3 * g) × ((front < g) × (i < g)) }
    ensures { area.new ≡ put g (entry_place g front i) key t area.old }
{
    let p = place(g, front, i);
    area[2 * p] = key.0;
    area[2 * p + 1] = key.1;
    area[2 * g + p] = t;
}

// Sets last-applied.
pub fn stamp(head: Head, t: u64) -> Head
    ensures by_index { (g : ℕ) (w : List ℕ) → log_of g w result ≡ stamp t (log_of g w head) }
    ensures base_value { (result.base ≡ head.base) × ((result.count ≡ head.count) × (result.front ≡ head.front)) }
{
    Head {
        last: Some(t),
        ..head
    }
}

// The i-th of keys that are two words each.
pub fn key_in(w: &[u64], i: usize) -> EventKey
    requires { 2 * i + 1 < length w.now }
    ensures { result ≡ key_in w.now i }
{
    EventKey(w[2 * i], w[2 * i + 1])
}

// How long ago a stamp was, 0 if it is later.
pub fn age(t: u64, stamp: u64) -> u64
    ensures { result ≡ age t stamp }
{
    t.saturating_sub(stamp)
}

// Whether a stamp is quiet at t: its age has come to QUIET; `never` where it has not come.
pub fn quiet(stamp: Option<u64>, t: u64, never: bool) -> bool
    ensures { result ≡ quiet_stamp stamp t never }
{
    stamp.map_or(never, |u| QUIET <= age(t, u))
}

// Whether entry i is young enough to stay.
fn stays(area: &[u64], g: usize, front: usize, i: usize, t: u64) -> bool
    requires { (length area.now ≡ 3 * g) × ((front < g) × (i < g)) }
    ensures { result ≡ leb (age t (get_or area.now (2 * g + entry_place g front i) 0)) log_keep }
{
    age(t, area[2 * g + place(g, front, i)]) <= LOG_KEEP
}

// How many entries at the front are too old to stay.
fn count_old(area: &[u64], g: usize, head: Head, t: u64) -> usize
    requires { Fit g area.now head }
    ensures { (result ≡ old t (log_of g area.now head).entries) × (result ≤ head.count) }
{
    for i in 0..head.count {
        if stays(area, g, head.front, i, t) {
            return i;
        }
    }
    head.count
}

// Where the first entry stands once k of them are gone: where it stood; the first place again where none is left, so that a quiet
// market keeps to the first places.
fn front_after(g: usize, front: usize, count: usize, k: usize) -> usize
    requires { (front < g) × ((k ≤ g) × (2 * g < 2 ^ 64)) }
    ensures { (result < g) × (k < count → result ≡ entry_place g front k) }
{
    if k < count { place(g, front, k) } else { 0 }
}

// Drops the entries at the front that are too old to stay; the numbers and places of the others stay theirs.
pub fn prune(area: &[u64], g: usize, head: Head, t: u64) -> Head
    requires { (Fit g area.now head) × (head.base + head.count < 2 ^ 64) }
    ensures result_value { log_of g area.now result ≡ prune t (log_of g area.now head) }
    ensures fit { (Fit g area.now result) × (result.base + result.count ≡ head.base + head.count) }
{
    let k = count_old(area, g, head, t);
    Head {
        base: head.base + k as u64,
        count: head.count - k,
        front: front_after(g, head.front, head.count, k),
        ..head
    }
}
