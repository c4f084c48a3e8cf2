// The lists that a call writes: records of seven words, tick reports of three.
#![tactic(auto)]

ghost use Rattle.std.specs.Prelude.{◌≡◌, ◌+◌, ◌*◌, ◌≤◌, length};
ghost use Rattle.output.specs.Output.{record_words, report_words, over_at};

use rules::{Applied, Expired};

// Writes a record behind the first n; how many there are then.
pub fn put_record(out: &mut [u64], n: usize, r: Applied) -> usize
    requires { 7 * n + 7 ≤ length out.old }
    ensures { (result ≡ n + 1) × (out.new ≡ over_at (7 * n) (record_words r) out.old) }
{
    let at = 7 * n;
    out[at..at + 7].copy_from_slice(&[
        r.conn,
        r.kind as u64,
        r.number,
        r.key.0,
        r.key.1,
        r.message,
        r.times,
    ]);
    n + 1
}

// Writes a report behind the first n; how many there are then.
pub fn put_report(reports: &mut [u64], n: usize, r: Expired) -> usize
    requires { 3 * n + 3 ≤ length reports.old }
    ensures { (result ≡ n + 1) × (reports.new ≡ over_at (3 * n) (report_words r) reports.old) }
{
    let at = 3 * n;
    let words = match r {
        Expired::Aligned(conn, records) => [0, conn, records as u64],
        Expired::Rebuild(conn, records) => [1, conn, records as u64],
        Expired::Failed(conn) => [2, conn, 0],
    };
    reports[at..at + 3].copy_from_slice(&words);
    n + 1
}
