// The reported wait of a place, and its finish figure for j transfers.
ghost use Rattle.std.specs.Prelude.{◌≡◌};
ghost use Rattle.terms.specs.Queries.{figures, figures_answer_of};
ghost use Rattle.layout.specs.Words.{room_of_words, state_of};

use admission::figures::{finish, wait};
use arbiter::bounds::need_bounds;
use layout::lent::Words;
use soundness::place::check_place;
use terms::answers::PlaceFigures;
use terms::refusals::Cause;
use terms::units::Transfers;

// Refused: 23, 11, 5.
#[tactic(auto, using(crate::proofs::Queries::query_below, crate::proofs::Queries::need_held, terms::proofs::Checks::held_by), unfolding(terms::specs::Queries::figures, terms::specs::Queries::figures_verdict, terms::specs::Refusals::then))]
pub fn figures_words(words: &Words, place: usize, j: Transfers) -> Result<PlaceFigures, Cause>
    ensures { figures_answer_of result ≡ figures (room_of_words words.now) (state_of words.now) place j.0 }
{
    let checked = check_place(words, place)?;
    need_bounds(place).hold(j.0)?;
    Ok(PlaceFigures {
        wait: wait(&checked, place),
        finish: finish(&checked, place, j),
    })
}
