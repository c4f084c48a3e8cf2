// Records as rows of a list of calls.
ghost use Rattle.std.specs.Prelude.{◌≤◌};

use listing::Call;
use listing::reading::read;

// The held limit H of the program's market, and the limit of each of its lines.
pub const HELD: u64 = 32;

// The view answer of a tick has a binary digit for each of the four lines.
const ALL_LINES: u64 = 15;

// A call as a row of eight words. No row can say a tick whose view answer of all lines is neither 0 nor 1.
fn row_of(call: Call) -> Option<[u64; 8]> {
    Some(match call {
        Call::Subscribe(conn, time) => [1, conn, HELD, 0, 0, 0, time, 0],
        Call::Snapshot(conn, token, message, time) => [2, conn, token, 0, 0, message, time, 0],
        Call::Book(conn, key, message, time) => [3, conn, 0, key.0, key.1, message, time, 0],
        Call::Print(conn, key, message, time) => [4, conn, 0, key.0, key.1, message, time, 0],
        Call::Drop(conn, time) => [5, conn, 0, 0, 0, 0, time, 0],
        Call::Promote(time) => [6, 0, 0, 0, 0, 0, time, 0],
        Call::Reset(time) => [7, 0, 0, 0, 0, 0, time, 0],
        Call::Tick(answer, time) => {
            if 1 < answer {
                return None;
            }
            [8, 0, 0, 0, 0, 0, time, ALL_LINES * answer]
        }
    })
}

// The row of the record at the front of these bytes, if it is one and a row can say it.
fn row_at(bytes: &[u8]) -> Option<[u64; 8]> {
    row_of(read(bytes).ok()?)
}

// Writes the rows of the records at the front of these bytes, up to one that has none; how many.
pub fn gather(rows: &mut [u64; 256], input: &[u8]) -> usize
    ensures { result ≤ 32 }
{
    for k in 0..32 {
        let Some(row) = input.get(44 * k..).and_then(row_at) else {
            return k;
        };
        rows[8 * k..8 * k + 8].copy_from_slice(&row);
    }
    32
}
