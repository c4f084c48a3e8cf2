// Runs every public function on a depth, and writes what each answers.
#![tactic(auto)]

mod answers;

use answers::{best, changed, prices, rising};
use depth::{Depth, Side};
use levels::Level;
use std::io;

// A side whose levels are all the same.
fn alike(price: u32, size: f64, count: usize) -> Side {
    Side {
        levels: [Level { price, size }; 512],
        count,
    }
}

fn empty() -> Depth {
    let none = alike(0, 0.0, 0);
    Depth {
        bids: none,
        asks: none,
    }
}

// Sets a level, and writes the answer.
fn set(rt: &impl Print, depth: &mut Depth, bid: bool, price: u32, size: f64) -> io::Result<()> {
    changed(rt, depth.set(bid, price, size))
}

// Trims, and writes the answer.
fn trim(
    rt: &impl Print,
    depth: &mut Depth,
    best_bid: Option<u32>,
    best_ask: Option<u32>,
) -> io::Result<()> {
    changed(rt, depth.trim(best_bid, best_ask))
}

fn sides(rt: &impl Print, depth: &Depth) -> io::Result<()> {
    prices(rt, "bid", depth.bid_levels())?;
    prices(rt, "ask", depth.ask_levels())
}

fn bests(rt: &impl Print, depth: &Depth) -> io::Result<()> {
    best(rt, "best bid", depth.best_bid())?;
    best(rt, "best ask", depth.best_ask())
}

// Levels set on both sides, read, removed and trimmed.
fn book(rt: &impl Print) -> io::Result<()> {
    let mut d = empty();
    set(rt, &mut d, true, 450000, 100.0)?;
    set(rt, &mut d, true, 440000, 250.5)?;
    set(rt, &mut d, true, 455000, 30.0)?;
    set(rt, &mut d, false, 470000, 80.0)?;
    set(rt, &mut d, false, 465000, 20.0)?;
    set(rt, &mut d, false, 500000, 1000.0)?;
    sides(rt, &d)?;
    bests(rt, &d)?;
    set(rt, &mut d, false, 465000, -0.0)?;
    trim(rt, &mut d, Some(450000), Some(470000))?;
    sides(rt, &d)?;
    trim(rt, &mut d, None, None)?;
    bests(rt, &d)
}

// 2^53 + 1 is no f64, and rounds to 2^53: only a sum that begins with both ones is 2^53 + 2. The last ask is beyond the ceiling.
fn sums(rt: &impl Print) -> io::Result<()> {
    let mut d = empty();
    set(rt, &mut d, true, 1, 1.0)?;
    set(rt, &mut d, true, 2, 1.0)?;
    set(rt, &mut d, true, 3, 9007199254740992.0)?;
    set(rt, &mut d, false, 4, 1.0)?;
    set(rt, &mut d, false, 5, 1.0)?;
    set(rt, &mut d, false, 6, 9007199254740992.0)?;
    set(rt, &mut d, false, 7, 2.0)?;
    rising(rt, d.bid_depth_from(1), 9007199254740994.0)?;
    rising(rt, d.ask_depth_to(6), 9007199254740994.0)
}

// A depth with bids of size one at 1 to 512, set one after the other.
fn full(rt: &impl Print) -> io::Result<Depth> {
    let mut d = empty();
    for price in 1..=512 {
        let answer = d.set(true, price, 1.0);
        if answer.is_err() {
            changed(rt, answer)?;
            return Ok(d);
        }
    }
    rt.println("512 done")?;
    Ok(d)
}

// Levels that are refused; answers the full depth.
fn refusals(rt: &impl Print) -> io::Result<Depth> {
    let mut d = empty();
    set(rt, &mut d, true, 0, 0.0 / 0.0)?;
    set(rt, &mut d, true, 1, 0.0 / 0.0)?;
    set(rt, &mut d, true, 1, -1.0)?;
    set(rt, &mut d, true, 1, 1.0 / 0.0)?;
    let mut f = full(rt)?;
    set(rt, &mut f, true, 513, 1.0)?;
    set(rt, &mut f, true, 513, 0.0)?;
    Ok(f)
}

// Every public function on a depth that is not sound.
fn unsound(rt: &impl Print, mut depth: Depth) -> io::Result<()> {
    set(rt, &mut depth, true, 1, 1.0)?;
    trim(rt, &mut depth, Some(1), Some(1))?;
    bests(rt, &depth)?;
    sides(rt, &depth)?;
    rising(rt, depth.bid_depth_from(1), 1.0)?;
    rising(rt, depth.ask_depth_to(1), 1.0)
}

fn main(rt: HostRuntime) -> io::Result<()> {
    book(&rt)?;
    sums(&rt)?;
    let mut over = refusals(&rt)?;
    over.bids.count = 513;
    unsound(&rt, over)?;
    let mut equal = empty();
    equal.bids = alike(1, 1.0, 2);
    unsound(&rt, equal)?;
    let mut zero = empty();
    zero.asks = alike(1, 0.0, 1);
    unsound(&rt, zero)
}
