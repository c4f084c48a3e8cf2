// Promote and drop, on a sound store.
ghost use Rattle.std.specs.Prelude.{◌≡◌};
ghost use Rattle.rules.specs.Calls as Rules;
ghost use Rattle.rules.specs.Calls.{claim, better};
ghost use Rattle.rules.specs.Lines.{conn_at};
ghost use Rattle.rules.specs.Answers.{of_lost};
ghost use Rattle.lines.specs.Line.{claim_of};
ghost use Rattle.store.specs.Store.{market_of, Sound};
ghost use Rattle.store.specs.ConnMoves.{LineFits};
ghost use Rattle.market.specs.Lent.{lent, Answers, Roomy};
ghost use Rattle.market.specs.Claims.{source_of};

use crate::Source;
use lines::Claim;
use rules::Lost;

// The i-th line's claim.
fn claim_of(s: &[u64], i: usize) -> Option<Claim>
    requires { LineFits s.now i }
    ensures { claim_of result ≡ claim (conn_at i (market_of s.now)).line }
{
    store::conns::line_at(s, i).claim(store::conns::items(s, i))
}

// The better of the i-th line's claim and the best of those behind it.
fn better_of(i: usize, claim: Option<Claim>, best: Option<Source>) -> Option<Source>
    ensures { source_of result ≡ better i (claim_of claim) (source_of best) }
{
    let Some(claim) = claim else {
        return best;
    };
    match best {
        Some(source) if claim < source.claim => best,
        _ => Some(Source { line: i, claim }),
    }
}

// The line with the best claim; of equal ones the lowest connection's.
fn source(s: &[u64]) -> Option<Source>
    requires { Sound s.now }
    ensures { source_of result ≡ Rules.source 0 (market_of s.now).lines }
{
    let mut best = None;
    for i in (0..store::conns::count(s)).rev() {
        best = better_of(i, claim_of(s, i), best);
    }
    best
}

// Where nobody is in line, the line with the best claim takes over an emptied log.
pub fn promote(s: &mut [u64], out: &mut [u64], t: u64) -> Lost
    requires { Roomy s.old out.old }
    ensures { Answers (Rules.promote t (market_of s.old))
        (lent s.old out.old) (of_lost (Ok result)) (lent s.new out.new) }
{
    if store::conns::any_in_line(s) {
        return Lost::Kept;
    }
    let best = source(s);
    store::entries::clear_log(s);
    let Some(source) = best else {
        return Lost::Gone;
    };
    let n = moves::entering::take_over(s, out, 0, source.line, t);
    Lost::Rebuild(moves::lining_up::align_pending(s, out, n, t))
}

// The connection's line goes; if it was in line, the others are promoted.
pub fn drop_conn(s: &mut [u64], out: &mut [u64], conn: u64, t: u64) -> Lost
    requires { Roomy s.old out.old }
    ensures { Answers (Rules.drop_conn conn t (market_of s.old))
        (lent s.old out.old) (of_lost (Ok result)) (lent s.new out.new) }
{
    let led = crate::asking::in_line(s, conn);
    line_list::remove(s, conn);
    if led {
        return promote(s, out, t);
    }
    Lost::Kept
}
