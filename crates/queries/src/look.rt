// A look into a state: the account of a place, and where the line stands.
ghost use Rattle.std.specs.Prelude.{◌≡◌};
ghost use Rattle.layout.specs.Words.{room_of_words, state_of};
ghost use Rattle.queries.specs.Look.{account_query, standing, account_answer_of, standing_answer_of};

use layout::lent::Words;
use layout::words::{account, count, slot_number};
use soundness::place::check_place;
use soundness::soundness::is_sound;
use terms::answers::Standing;
use terms::place::Account;
use terms::refusals::{Cause, StateRefusal};

// Refused: 23, 11.
#[tactic(auto, using(crate::proofs::Queries::query_account, crate::proofs::Queries::query_there), unfolding(crate::specs::Look::account_query))]
pub fn account_words(words: &Words, place: usize) -> Result<Account, Cause>
    ensures { account_answer_of result ≡ account_query (room_of_words words.now) (state_of words.now) place }
{
    let checked = check_place(words, place)?;
    Ok(account(checked.slice(), place))
}

// Refused: 23.
#[tactic(auto, using(admission::proofs::Rows::head_there, crate::proofs::Queries::standing_unsound, crate::proofs::Queries::standing_looked), unfolding(layout::specs::Words::words_state))]
pub fn standing_words(words: &Words) -> Result<Standing, Cause>
    ensures { standing_answer_of result ≡ standing (room_of_words words.now) (state_of words.now) }
{
    if !is_sound(words) {
        return Err(StateRefusal::Unsound.into());
    }
    let words = words.slice();
    Ok(Standing {
        slot: slot_number(words),
        count: count(words),
    })
}
