// The log of a whole store: its head in the header, its entries in the area behind the header.
ghost use Rattle.std.specs.Prelude.{◌≡◌, ◌+◌, ◌≤◌, ◌<◌, ◌^◌, length};
ghost use Rattle.rules.specs.Log as Rules;
ghost use Rattle.rules.specs.Log.{push, stamp, clear, prune};
ghost use Rattle.rules.specs.Lines.{with_log};
ghost use Rattle.store.specs.Store.{limits_of, head_of, put_head, key_words, market_of, Sized};
ghost use Rattle.store.specs.Moves.{Moved, Counts};

use event_log::Head;
use rules::{EventKey, Limits};

// The market's limits.
pub fn limits(s: &[u64]) -> Limits
    requires { 64 ≤ length s.now }
    ensures { result ≡ limits_of s.now }
{
    Limits {
        L: s[0],
        H: s[1],
        G: s[2],
        C: s[3],
        D: s[4],
    }
}

// The log's head.
pub fn head(s: &[u64]) -> Head
    requires { 64 ≤ length s.now }
    ensures { result ≡ head_of s.now }
{
    Head {
        base: s[5],
        count: s[6] as usize,
        last: lines::area::stamp(s[7], s[8]),
        front: s[15] as usize,
    }
}

// The number of the log's first entry.
pub fn base(s: &[u64]) -> u64
    requires { 64 ≤ length s.now }
    ensures { result ≡ (head_of s.now).base }
{
    s[5]
}

// How many entries the log has.
pub fn count(s: &[u64]) -> usize
    requires { 64 ≤ length s.now }
    ensures { result ≡ (head_of s.now).count }
{
    s[6] as usize
}

// The place of the log's first entry.
pub fn front(s: &[u64]) -> usize
    requires { 64 ≤ length s.now }
    ensures { result ≡ (head_of s.now).front }
{
    s[15] as usize
}

// The number after the log's last.
pub fn end(s: &[u64]) -> u64
    requires { (64 ≤ length s.now) × ((head_of s.now).base + (head_of s.now).count < 2 ^ 64) }
    ensures { result ≡ Rules.end (market_of s.now).log }
{
    s[5] + s[6]
}

// The words of the log's keys.
pub fn keys(s: &[u64]) -> &[u64]
    requires { Sized s.now }
    ensures { result.now ≡ key_words s.now }
{
    let g = s[2] as usize;
    &s[64..64 + 2 * g]
}

// Writes the log's head.
fn put_head(s: &mut [u64], head: Head)
    requires { 64 ≤ length s.old }
    ensures { s.new ≡ put_head head s.old }
{
    s[5..9].copy_from_slice(&[
        head.base,
        head.count as u64,
        u64::from(head.last.is_some()),
        head.last.unwrap_or(0),
    ]);
    s[15] = head.front as u64;
}

// Adds an entry at the log's end and sets last-applied.
pub fn push(s: &mut [u64], key: EventKey, t: u64)
    requires sized { Sized s.old }
    requires s_bound { (head_of s.old).count < (limits_of s.old).G }
    ensures { Moved s.old s.new (with_log (push key t (market_of s.old).log) (market_of s.old)) }
{
    let g = s[2] as usize;
    let end = crate::areas::tables_start(s);
    let mut head = head(s);
    log_borrowed::lent::push(&mut s[64..end], g, &mut head, key, t);
    put_head(s, head);
}

// Sets last-applied.
pub fn stamp(s: &mut [u64], t: u64)
    requires { Sized s.old }
    ensures { Moved s.old s.new (with_log (stamp t (market_of s.old).log) (market_of s.old)) }
{
    let head = event_log::stamp(head(s), t);
    put_head(s, head);
}

// Empties the log; the numbers go on.
pub fn clear_log(s: &mut [u64])
    requires sized { Sized s.old }
    requires s_bound { (head_of s.old).base + (head_of s.old).count < 2 ^ 64 }
    ensures { Moved s.old s.new (with_log (clear (market_of s.old).log) (market_of s.old)) }
{
    let mut head = head(s);
    log_borrowed::lent::clear(&mut head);
    put_head(s, head);
}

// Drops the log's entries at the front that are too old to stay at t.
pub fn prune(s: &mut [u64], t: u64)
    requires sized { Sized s.old }
    requires counts { Counts s.old }
    ensures { Moved s.old s.new (with_log (prune t (market_of s.old).log) (market_of s.old)) }
{
    let g = s[2] as usize;
    let end = crate::areas::tables_start(s);
    let head = head(s);
    let pruned = event_log::prune(&s[64..end], g, head, t);
    put_head(s, pruned);
}
