// Words of a lent store: shared laws are in proofs/, and what several areas do with words is here.
#![tactic(auto)]

ghost use Rattle.std.specs.Prelude.{◌+◌, ◌≤◌, length};
ghost use Rattle.words.specs.Words.{Apart, Copied};

// Copies the n words from `from` on to the places from `to` on, which are others.
pub fn copy(s: &mut [u64], from: usize, to: usize, n: usize)
    requires { (Apart from to n) × ((from + n ≤ length s.old) × (to + n ≤ length s.old)) }
    ensures { Copied from to s.old s.new n }
{
    s.copy_within(from..from + n, to);
}
