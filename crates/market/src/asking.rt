// The queries and the view, on a sound store.
ghost use Rattle.std.specs.Prelude.{◌≡◌, ◌≤◌, length};
ghost use Rattle.rules.specs.Quantities.{area_items};
ghost use Rattle.rules.specs.Refusals as Rules;
ghost use Rattle.store.specs.Store.{limits_of, market_of, Sound};
ghost use Rattle.output.specs.Output.{over};

// Whether the connection is in line.
pub fn in_line(s: &[u64], conn: u64) -> bool
    requires { Sound s.now }
    ensures { result ≡ Rules.in_line conn (market_of s.now) }
{
    let i = store::conns::find(s, conn);
    i < store::conns::count(s) && store::conns::line_at(s, i).in_line()
}

// Whether some line is in line, or able to start the book.
pub fn servable(s: &[u64]) -> bool
    requires { Sound s.now }
    ensures { result ≡ Rules.servable (market_of s.now) }
{
    for i in 0..store::conns::count(s) {
        if store::conns::line_at(s, i).servable() {
            return true;
        }
    }
    false
}

// Writes a pending line's messages to the front of a list; how many there are.
pub fn view(s: &[u64], conn: u64, list: &mut [u64]) -> usize
    requires { (Sound s.now) × (area_items (limits_of s.now) ≤ length list.old) }
    ensures { (result ≡ length (Rules.messages conn (market_of s.now)))
        × (list.new ≡ over (Rules.messages conn (market_of s.now)) list.old) }
{
    let i = store::conns::find(s, conn);
    if i < store::conns::count(s) && store::conns::line_at(s, i).pending() {
        let n = store::conns::held(s, i);
        place::put_messages(store::conns::items(s, i), n, list);
        return n;
    }
    0
}
