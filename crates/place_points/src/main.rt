// The starred points about places, proved and run: a place counts with four matches, and where two count there is none.
#![tactic(auto)]

ghost use Rattle.std.specs.Prelude.{◌≡◌, ◌≤◌};
ghost use Rattle.place_points.specs.Points.{place_at, Point};

use event_log::Head;
use place::Place;

// The place of the line's first `held` items in the log's first `count` entries.
fn place_at(count: usize, held: usize) -> Option<Place>
    requires { (count ≤ 8) × (held ≤ 5) }
    ensures { result ≡ place_at count held }
{
    let log: [u64; 16] = [2, 1, 2, 2, 1, 1, 1, 2, 2, 1, 2, 2, 1, 1, 1, 2];
    let line: [u64; 20] = [0, 1, 1, 5, 0, 1, 2, 6, 0, 2, 1, 7, 0, 2, 2, 8, 0, 3, 1, 9];
    let head = Head {
        base: 0,
        count,
        last: None,
        front: 6,
    };
    place::alignment(&log, 8, head, &line, held, false)
}

fn expect_place(count: usize, held: usize, want: Option<Place>)
    requires { Point count held want }
{
    check::expect(place_at(count, held) == want);
}

// The held events from this one on are the log's from this number on.
fn at(event: usize, number: u64) -> Option<Place>
    ensures { result ≡ Some (record { event = event; number = number }) }
{
    Some(Place { event, number })
}

fn main() {
    // Log p q r s: p q r has no place; with s behind it the line is level from number 0 on.
    expect_place(4, 3, None);
    expect_place(4, 4, at(0, 0));
    // Log p q r s p q r s: p q r s has two places; with t behind it the one at number 4 is left, and t is number 8.
    expect_place(8, 4, None);
    expect_place(8, 5, at(0, 4));
}
