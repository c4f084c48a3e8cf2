// The queries and the view, on any words. What each of them promises is in crate promise.
#![tactic(auto)]

ghost use Rattle.rules.specs.Refusals as Rules;
ghost use Rattle.rules.specs.Answers.{of_asked, of_viewed};
ghost use Rattle.market.specs.Lent.{lent, alone};
ghost use Rattle.promise.specs.Meets.{Promise, of_query, of_view, asks, views};

use rules::Refusal;

// Whether the connection is in line.
pub fn in_line(s: &[u64], conn: u64) -> Result<bool, Refusal>
    ensures { Promise (of_query (Rules.in_line conn)) (alone s.now) (asks (of_asked result)) (alone s.now) }
{
    sound::check(s)?;
    Ok(market::asking::in_line(s, conn))
}

// Whether anyone is in line.
pub fn any_in_line(s: &[u64]) -> Result<bool, Refusal>
    ensures { Promise (of_query Rules.any_in_line) (alone s.now) (asks (of_asked result)) (alone s.now) }
{
    sound::check(s)?;
    Ok(store::conns::any_in_line(s))
}

// Whether some line is in line, or able to start the book.
pub fn servable(s: &[u64]) -> Result<bool, Refusal>
    ensures { Promise (of_query Rules.servable) (alone s.now) (asks (of_asked result)) (alone s.now) }
{
    sound::check(s)?;
    Ok(market::asking::servable(s))
}

// Writes a pending line's messages to the front of a list.
pub fn view(s: &[u64], conn: u64, list: &mut [u64]) -> Result<usize, Refusal>
    ensures { Promise (of_view conn) (lent s.now list.old) (views (of_viewed result)) (lent s.now list.new) }
{
    sound::check(s)?;
    if list.len() < store::conns::held_limit(s) + 8 {
        return Err(Refusal::Room);
    }
    Ok(market::asking::view(s, conn, list))
}
