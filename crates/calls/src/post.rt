// A post adds a count to one place's backlog (clause 5.1).
ghost use Rattle.std.specs.Prelude.{◌≡◌};
ghost use Rattle.terms.specs.Limits.{max_places};
ghost use Rattle.arbiter.specs.ByValue.{held, result_of};
ghost use Rattle.rule.specs.Calls.{post, called};

use arbiter::state::Arbiter;
use moves::posts::post_words;
use terms::answers::Outcome;
use terms::units::Transfers;

// Refused: 23, 11, 21 (clause 13.7).
#[tactic(auto, using(arbiter::proofs::ByValue::right_full, arbiter::proofs::ByValue::room_full))]
pub fn post(mut s: Arbiter, place: usize, count: Transfers) -> Outcome<Arbiter, ()>
    ensures { result_of result ≡ called max_places (held s) (post place count.0) }
{
    let answer = post_words(&mut s.words, place, count);
    Outcome { after: s, answer }
}
