// Where a line of a store lines up, and how many events it holds.
ghost use Rattle.std.specs.Prelude.{◌≡◌, ◌<◌, length};
ghost use Rattle.rules.specs.Lines.{conn_at, items_of, events};
ghost use Rattle.rules.specs.Entering.{aligns};
ghost use Rattle.place.specs.Items.{place_of};
ghost use Rattle.store.specs.Store.{line_count, market_of, Sound};
ghost use Rattle.store.specs.ConnMoves.{LineFits};

use place::Place;

// How many events the i-th line holds.
pub fn events_held(s: &[u64], i: usize) -> usize
    requires { LineFits s.now i }
    ensures { result ≡ length (events (items_of (conn_at i (market_of s.now)).line)) }
{
    let n = store::conns::held(s, i);
    place::count_events(store::conns::items(s, i), n)
}

// Where the i-th line lines up, while no line is due a snapshot.
pub fn alignment(s: &[u64], i: usize, quiet: bool) -> Option<Place>
    requires { (Sound s.now) × (i < line_count s.now) }
    ensures { result ≡ place_of (market_of s.now).log.base
        (aligns quiet (conn_at i (market_of s.now)).line (market_of s.now)) }
{
    if !store::conns::line_at(s, i).pending() || store::conns::some_due(s) {
        return None;
    }
    let g = store::entries::limits(s).G as usize;
    let head = store::entries::head(s);
    let n = store::conns::held(s, i);
    place::alignment(
        store::entries::keys(s),
        g,
        head,
        store::conns::items(s, i),
        n,
        quiet,
    )
}
