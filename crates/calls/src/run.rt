// A run: as many slots as a lent log has bytes (clause 6.1).
ghost use Rattle.std.specs.Prelude.{◌≡◌};
ghost use Rattle.terms.specs.Limits.{max_places};
ghost use Rattle.arbiter.specs.ByValue.{held};
ghost use Rattle.rule.specs.Log.{run};
ghost use Rattle.calls.specs.ByValue.{outcome_of};

use arbiter::state::Arbiter;
use moves::runs::run_words;
use terms::answers::Outcome;

// Refused: 23, 13, 22 (clause 13.9). Then no byte is written.
#[tactic(auto, using(arbiter::proofs::ByValue::right_full, arbiter::proofs::ByValue::room_full))]
pub fn run(mut s: Arbiter, log: &mut [u8]) -> Outcome<Arbiter, ()>
    ensures { outcome_of result log.new ≡ run max_places (held s) log.old }
{
    let answer = run_words(&mut s.words, log);
    Outcome { after: s, answer }
}
