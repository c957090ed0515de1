// A slot: the place that is granted, or nobody (clauses 5.2 to 5.6).
ghost use Rattle.std.specs.Prelude.{◌≡◌};
ghost use Rattle.terms.specs.Limits.{max_places};
ghost use Rattle.arbiter.specs.ByValue.{held};
ghost use Rattle.rule.specs.Calls.{slot, called};
ghost use Rattle.calls.specs.ByValue.{slot_result_of};

use arbiter::state::Arbiter;
use moves::slots::slot_words;
use terms::answers::{Outcome, Slot};

// Refused: 23, 22 (clause 13.8).
#[tactic(auto, using(arbiter::proofs::ByValue::right_full, arbiter::proofs::ByValue::room_full))]
pub fn slot(mut s: Arbiter) -> Outcome<Arbiter, Slot>
    ensures { slot_result_of result ≡ called max_places (held s) slot }
{
    let answer = slot_words(&mut s.words);
    Outcome { after: s, answer }
}
