// One lent slice of words: the header, the log, the print tables and the lines.
#![tactic(auto)]

pub mod areas;
pub mod conns;
pub mod entries;
pub mod tables;

ghost use Rattle.std.specs.Prelude.{◌≡◌, ◌≤◌, length};
ghost use Rattle.rules.specs.Lines.{fresh};
ghost use Rattle.store.specs.Store.{layout, layout_of, head_of, market_of};

use rules::Limits;

// The layout of a store's words; docs/LAYOUT.md says what each number stands for.
pub const LAYOUT: u64 = 4;

// The layout that the words say they have.
pub fn layout(s: &[u64]) -> u64
    requires { 64 ≤ length s.now }
    ensures { result ≡ layout_of s.now }
{
    s[12]
}

// Writes the header of an empty store, whatever the words were.
pub fn put_header(s: &mut [u64], l: Limits, start: u64)
    requires { 64 ≤ length s.old }
    ensures { (market_of s.new ≡ fresh l start) × ((layout_of s.new ≡ layout) × ((head_of s.new).front ≡ 0)) }
{
    s[0..8].copy_from_slice(&[l.L, l.H, l.G, l.C, l.D, start, 0, 0]);
    s[8..16].copy_from_slice(&[0, 0, 0, 0, LAYOUT, 0, 0, 0]);
}
