// The chain figure of a place that follows others (clauses 9.1 to 9.3).
ghost use Rattle.std.specs.Prelude.{◌≡◌};
ghost use Rattle.terms.specs.Limits.{max_places};
ghost use Rattle.terms.specs.Chain.{chain, chain_answer_of};
ghost use Rattle.arbiter.specs.ByValue.{held};

use arbiter::state::Arbiter;
use chains::chain::chain_words;
use layout::lent::Words;
use terms::refusals::Cause;
use terms::units::Slots;

// The names are one byte for each place: the place that it follows, or 255 for nobody. Those past the table's places are not read; a place
// past the names' end follows nobody. Refused: 23, 11, 16 (clause 13.12).
#[tactic(auto, using(arbiter::proofs::ByValue::right_full, arbiter::proofs::ByValue::room_full))]
pub fn chain(s: Arbiter, place: usize, names: &[u8]) -> Result<Slots, Cause>
    ensures { chain_answer_of result ≡ chain max_places (held s) place names.now }
{
    chain_words(&Words::of(&s.words), place, names)
}
