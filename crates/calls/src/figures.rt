// The reported wait of a place, and its finish figure for j transfers (clause 7.4).
ghost use Rattle.std.specs.Prelude.{◌≡◌};
ghost use Rattle.terms.specs.Limits.{max_places};
ghost use Rattle.terms.specs.Queries.{figures, figures_answer_of};
ghost use Rattle.arbiter.specs.ByValue.{held};

use arbiter::state::Arbiter;
use layout::lent::Words;
use queries::figures::figures_words;
use terms::answers::PlaceFigures;
use terms::refusals::Cause;
use terms::units::Transfers;

// Refused: 23, 11, 5 (clause 13.11).
#[tactic(auto, using(arbiter::proofs::ByValue::right_full, arbiter::proofs::ByValue::room_full))]
pub fn figures(s: Arbiter, place: usize, j: Transfers) -> Result<PlaceFigures, Cause>
    ensures { figures_answer_of result ≡ figures max_places (held s) place j.0 }
{
    figures_words(&Words::of(&s.words), place, j)
}
