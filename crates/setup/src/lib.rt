// Setup: the public call that makes an empty store, whatever the words were.
#![tactic(auto)]

ghost use Rattle.rules.specs.Answers.{of_changed};
ghost use Rattle.market.specs.Lent.{alone};
ghost use Rattle.promise.specs.Meets.{Promise, of_setup, says};

use rules::{Limits, Refusal};

// Makes an empty store of these limits, whatever the words were.
pub fn setup(s: &mut [u64], l: Limits, start: u64) -> Result<(), Refusal>
    ensures { Promise (of_setup l start) (alone s.old) (says (of_changed result)) (alone s.new) }
{
    if !sound::in_range(l) {
        return Err(Refusal::Limits);
    }
    if (s.len() as u64) < sound::words_needed(l) {
        return Err(Refusal::Unsound);
    }
    store::put_header(s, l, start);
    Ok(())
}
