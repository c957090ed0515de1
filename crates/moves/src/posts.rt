// A post adds a count to one place's backlog. The length is asked for, as of all words that are lent to be written (layout::lent).
ghost use Rattle.std.specs.Prelude.{◌≡◌, true};
ghost use Rattle.terms.specs.Limits.{max_places};
ghost use Rattle.rule.specs.Calls.{post, called};
ghost use Rattle.terms.specs.Answers.{answer_of};
ghost use Rattle.layout.specs.Words.{room_of_words, right_length, state_of};

use arbiter::state::Arbiter;
use layout::lent::Words;
use layout::words::{account, put_account};
use soundness::place::check_place;
use terms::place::Account;
use terms::refusals::{Cause, StateRefusal};
use terms::units::Transfers;

// Refused: 23, 11, 21.
#[tactic(auto, using(crate::proofs::Posting::post_ends))]
pub fn post_words(words: &mut [u64], place: usize, transfers: Transfers) -> Result<(), Cause>
    requires { right_length max_places words.old ≡ true }
    ensures { record { state = state_of words.new; answer = answer_of result } ≡ called (room_of_words words.old) (state_of words.old) (post place transfers.0) }
{
    check_place(&Words::of(words), place)?;
    let a = account(words, place);
    // what is free, since the sum of any count and the backlog may not fit
    if Arbiter::MAX_BACKLOG - a.backlog.0 < transfers.0 {
        return Err(StateRefusal::BacklogLimit.into());
    }
    let backlog = Transfers(a.backlog.0 + transfers.0);
    put_account(words, place, Account { backlog, ..a });
    Ok(())
}
