// A look into a state: the account of a place, and where the line stands (clause 11.3).
ghost use Rattle.std.specs.Prelude.{◌≡◌};
ghost use Rattle.terms.specs.Limits.{max_places};
ghost use Rattle.arbiter.specs.ByValue.{held};
ghost use Rattle.queries.specs.Look.{account_query, standing, account_answer_of, standing_answer_of};

use arbiter::state::Arbiter;
use layout::lent::Words;
use queries::look::{account_words, standing_words};
use terms::answers::Standing;
use terms::place::Account;
use terms::refusals::Cause;

// Refused: 23, 11 (clause 13.13).
#[tactic(auto, using(arbiter::proofs::ByValue::right_full, arbiter::proofs::ByValue::room_full))]
pub fn account(s: Arbiter, place: usize) -> Result<Account, Cause>
    ensures { account_answer_of result ≡ account_query max_places (held s) place }
{
    account_words(&Words::of(&s.words), place)
}

// Refused: 23 (clause 13.13).
#[tactic(auto, using(arbiter::proofs::ByValue::right_full, arbiter::proofs::ByValue::room_full))]
pub fn standing(s: Arbiter) -> Result<Standing, Cause>
    ensures { standing_answer_of result ≡ standing max_places (held s) }
{
    standing_words(&Words::of(&s.words))
}
