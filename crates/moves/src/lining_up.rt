// Line-up, and the sweep that tries it with every pending line.
ghost use Rattle.std.specs.Prelude.{◌≡◌, [], ◌∷◌, false, ◌+◌, ◌-◌, ◌<◌, length, drop};
ghost use Rattle.rules.specs.Lines.{conn_at, items_of, events};
ghost use Rattle.rules.specs.Entering.{push_all, line_up, try_line_up, round, sweep};
ghost use Rattle.store.specs.Store.{head_of, line_count, market_of};
ghost use Rattle.moves.specs.Does.{Does, Ready, PushRoom, ItemsRoom};
ghost use Rattle.moves.specs.Places.{AtPlace};

use lines::Line;
use place::Place;
use rules::Item;

// How many records there are, and how many held events are still to be passed over.
#[derive(Clone, Copy)]
struct Past {
    n: usize,
    skip: usize,
}

// Passes an item over, or pushes and puts it out: the events from the skip-th on are.
fn push_past(s: &mut [u64], out: &mut [u64], past: Past, conn: u64, t: u64, item: Item) -> Past
    requires { PushRoom s.old out.old past.n }
    ensures does { Does (push_all conn t (drop past.skip (events (item ∷ []))))
        s.old out.old past.n s.new out.new result.n }
    ensures skip_value { result.skip ≡ past.skip - length (events (item ∷ [])) }
{
    match item {
        Item::Snapshot(_, _) => past,
        Item::Event(key, message) => {
            if 0 < past.skip {
                return Past {
                    n: past.n,
                    skip: past.skip - 1,
                };
            }
            let n = crate::entering::push_out(s, out, past.n, conn, t, key, message);
            Past { n, skip: 0 }
        }
    }
}

// Pushes and puts out the i-th line's held events from the skip-th on.
fn push_events(s: &mut [u64], out: &mut [u64], n: usize, i: usize, t: u64, skip: usize) -> usize
    requires { ItemsRoom s.old out.old n i }
    ensures { Does (push_all (conn_at i (market_of s.old)).conn t
        (drop skip (events (items_of (conn_at i (market_of s.old)).line))))
        s.old out.old n s.new out.new result }
{
    let conn = store::conns::conn_at(s, i);
    let mut past = Past { n, skip };
    for j in 0..store::conns::held(s, i) {
        let item = store::conns::item_at(s, i, j);
        past = push_past(s, out, past, conn, t, item);
    }
    past.n
}

// The i-th line lines up at this place.
fn line_up(s: &mut [u64], out: &mut [u64], n: usize, i: usize, t: u64, place: Place) -> usize
    requires { (Ready s.old out.old n) × (AtPlace s.old i place.event place.number) }
    ensures { Does (line_up i t (place.event, place.number - (head_of s.old).base))
        s.old out.old n s.new out.new result }
{
    let behind = (store::entries::end(s) - place.number) as usize;
    let events = crate::reads::events_held(s, i);
    let next = place.number + (events - place.event) as u64;
    let m = push_events(s, out, n, i, t, place.event + behind);
    crate::entering::enter(s, out, m, i, Line::lined_up(next))
}

// The i-th line lines up, if it can.
pub fn try_align(s: &mut [u64], out: &mut [u64], n: usize, i: usize, t: u64, quiet: bool) -> usize
    requires { (Ready s.old out.old n) × (i < line_count s.old) }
    ensures { Does (try_line_up quiet i t) s.old out.old n s.new out.new result }
{
    match crate::reads::alignment(s, i, quiet) {
        Some(place) => line_up(s, out, n, i, t, place),
        None => n,
    }
}

// Tries to line up each line, rising.
fn round(s: &mut [u64], out: &mut [u64], n: usize, t: u64) -> usize
    requires { Ready s.old out.old n }
    ensures { Does (round (line_count s.old) 0 t) s.old out.old n s.new out.new result }
{
    let mut m = n;
    for i in 0..store::conns::count(s) {
        m = try_align(s, out, m, i, t, false);
    }
    m
}

// Rounds until one lines nobody up, or nobody is pending.
pub fn align_pending(s: &mut [u64], out: &mut [u64], n: usize, t: u64) -> usize
    requires { Ready s.old out.old n }
    ensures { Does (sweep t) s.old out.old n s.new out.new result }
{
    let mut m = n;
    let mut pending = store::conns::pendings(s);
    // As many rounds as line somebody up: a `for` does not say it plainer.
    while 0 < pending {
        m = round(s, out, m, t);
        let left = store::conns::pendings(s);
        if left == pending {
            return m;
        }
        pending = left;
    }
    m
}
