// Where the words of a store lie, and the moves of its lines' areas.
ghost use Rattle.std.specs.Prelude.{◌≡◌, ◌≤◌};
ghost use Rattle.rules.specs.Lines.{waiting, with_lines};
ghost use Rattle.store.specs.Store.{limits_of, tables_at, lines_at, market_of, Sized};
ghost use Rattle.store.specs.Moves.{Moved};
ghost use Rattle.store.specs.ConnMoves.{LineAt};
ghost use Rattle.store.specs.Areas.{Starts, Ends, without, inserted, Room};

// Where the log's words end and the print tables' start.
pub fn tables_start(s: &[u64]) -> usize
    requires { Sized s.now }
    ensures { result ≡ tables_at (limits_of s.now) }
{
    let g = s[2] as usize;
    64 + 3 * g
}

// Where the print tables' words end and the lines' start.
pub fn lines_start(s: &[u64]) -> usize
    requires { Sized s.now }
    ensures { result ≡ lines_at (limits_of s.now) }
{
    let c = s[3] as usize;
    let d = s[4] as usize;
    tables_start(s) + (4 * c + 4 * d)
}

// Where the i-th line's words start; past the last line, where another's would.
pub fn line_start(s: &[u64], i: usize) -> usize
    requires { (Sized s.now) × (i ≤ (limits_of s.now).L) }
    ensures { Starts s.now i result }
{
    let h = s[1] as usize;
    lines_start(s) + i * (7 * h + 64)
}

// Where they end.
pub fn line_end(s: &[u64], i: usize) -> usize
    requires { LineAt s.now i }
    ensures { Ends s.now i result }
{
    let h = s[1] as usize;
    line_start(s, i) + (7 * h + 64)
}

// The i-th line goes: the areas behind it move down by one.
pub fn take_out(s: &mut [u64], i: usize)
    requires { LineAt s.old i }
    ensures { Moved s.old s.new (with_lines (without i (market_of s.old).lines) (market_of s.old)) }
{
    let last = s[9] as usize - 1;
    let h = s[1] as usize;
    let width = 7 * h + 64;
    let mut a = line_start(s, i);
    for _j in i..last {
        lines::area::copy(s, h, a + width, a);
        a += width;
    }
    s[9] = last as u64;
}

// A line of the connection comes to stand at place i, with this limit: the areas from there on move up by one.
pub fn insert(s: &mut [u64], i: usize, conn: u64, limit: u64, t: u64)
    requires { Room s.old i }
    ensures { Moved s.old s.new
        (with_lines (inserted i (waiting conn limit t) (market_of s.old).lines) (market_of s.old)) }
{
    let n = s[9] as usize;
    let h = s[1] as usize;
    let width = 7 * h + 64;
    let mut a = line_start(s, n);
    for _j in (i..n).rev() {
        lines::area::copy(s, h, a - width, a);
        a -= width;
    }
    lines::area::put_waiting(&mut s[a..a + width], conn, limit, t);
    s[9] = (n + 1) as u64;
}
