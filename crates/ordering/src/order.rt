// A table put in order: checks 1 to 6 and 17 of it as listed, and then the search (clauses 8.1 and 13.5).
ghost use Rattle.std.specs.Prelude.{◌≡◌, true, false};
ghost use Rattle.terms.specs.Limits.{max_places};
ghost use Rattle.terms.specs.Refusals.{refusal};
ghost use Rattle.terms.specs.Answers.{refused, answer_of};
ghost use Rattle.layout.specs.Words.{room_of_words, right_length, state_of};
ghost use Rattle.arbiter.specs.ByValue.{given};
ghost use Rattle.ordering.specs.Order.{order, order_result_of};
ghost use Rattle.ordering.specs.InPlace.{in_state};

use crate::search::search;
use arbiter::admit::{check_laid, check_length};
use arbiter::state::Arbiter;
use arbiter::table::{Table, lay_table, table_of};
use opening::turn_down;
use terms::answers::Outcome;
use terms::refusals::Cause;

// Of the table that was laid into words: they then hold it in order, or are all 0. Refused: 1 to 6, 17, 15. Words of another length than a
// state's stay what they were, and get 23.
#[tactic(auto, using(arbiter::proofs::Verdicts::gate_passes, crate::proofs::InPlace::offer_checked), unfolding(crate::specs::Order::order, terms::specs::Refusals::gate))]
pub fn order_laid(words: &mut [u64]) -> Result<(), Cause>
    ensures ordered { right_length max_places words.old ≡ true → record { state = state_of words.new; answer = answer_of result } ≡ in_state (room_of_words words.old) (state_of words.old) (order (room_of_words words.old) (state_of words.old).table) }
    ensures wrong { right_length max_places words.old ≡ false → (words.new ≡ words.old) × (answer_of result ≡ refused (refusal 23)) }
{
    check_length(words)?;
    if let Err(why) = check_laid(words) {
        return turn_down(words, why);
    }
    search(words)
}

// The table with its requestors where the search puts them; a refused one comes back all 0. Refused: 1 to 6, 17, 15 (clause 13.5).
pub fn order(t: Table) -> Outcome<Table, ()>
    ensures { order_result_of result ≡ order max_places (given t) }
{
    let mut words = lay_table(t);
    let answer = order_laid(&mut words);
    Outcome {
        after: table_of(Arbiter { words }),
        answer,
    }
}
