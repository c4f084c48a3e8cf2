// Rows taken out of a table of two runs by their third word.
ghost use Rattle.std.specs.Prelude.{true, ◌+◌, ◌*◌, ◌≤◌, length};
ghost use Rattle.rows.specs.Tables.{Table};
ghost use Rattle.rows.specs.Removal.{RunKept, Removed};

use crate::Runs;

// Of n rows from row `from` on those whose third word is not z move together, from row `to` on. Answers how many they are.
fn keep_others(t: &mut [u64], from: usize, n: usize, to: usize, z: u64) -> usize
    requires { (to ≤ from) × (4 * (from + n) ≤ length t.old) }
    ensures { RunKept from n to z t.old t.new result }
{
    let mut j = 0;
    for i in 0..n {
        if t[4 * (from + i) + 2] != z {
            // where none before it went, it is in its place
            if to + j < from + i {
                crate::copy_row(t, from + i, to + j);
            }
            j += 1;
        }
    }
    j
}

// The rows whose third word is z go. Answers how many are left of each run.
pub fn remove(t: &mut [u64], b: usize, u: Runs, z: u64) -> Runs
    requires { Table true b u t.old }
    ensures { Removed b u z t.old t.new result }
{
    let old = keep_others(t, b, u.old, b, z);
    let new = keep_others(t, b + u.old, u.new, b + old, z);
    Runs { old, new }
}
