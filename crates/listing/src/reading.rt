// A record's bytes as a call.
ghost use Rattle.std.specs.Prelude.{◌≡◌, ◌≤◌, length, get_or};
ghost use Rattle.listing.specs.Record.{record_of, by_call};

use crate::{Call, Fault};
use keys::load::load64;
use rules::EventKey;

// The call of a record with the right mark, by its call byte.
fn call_of(b: &[u8]) -> Result<Call, Fault>
    requires { 44 ≤ length b.now }
    ensures { result ≡ by_call (get_or b.now 2 0) b.now }
{
    let conn = load64(b, 3);
    let key = EventKey(load64(b, 11), load64(b, 19));
    let message = load64(b, 27);
    let time = load64(b, 35);
    let index = u64::from(b[43]);
    match b[2] {
        1 => Ok(Call::Subscribe(conn, time)),
        2 => Ok(Call::Snapshot(conn, index, message, time)),
        3 => Ok(Call::Book(conn, key, message, time)),
        4 => Ok(Call::Print(conn, key, message, time)),
        5 => Ok(Call::Drop(conn, time)),
        6 => Ok(Call::Promote(time)),
        7 => Ok(Call::Reset(time)),
        8 => Ok(Call::Tick(index, time)),
        _ => Err(Fault::Call),
    }
}

// The call of the record at the front of these bytes.
pub fn read(b: &[u8]) -> Result<Call, Fault>
    ensures { result ≡ record_of b.now }
{
    if b.len() < 44 {
        return Err(Fault::Short);
    }
    if b[0] == 0x4D && b[1] == 0x47 {
        return call_of(b);
    }
    Err(Fault::Mark)
}
