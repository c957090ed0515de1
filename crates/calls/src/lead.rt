// The lead of a place over a log (clause 6.3): how far its grants are ahead of its rate, and below 0 how far behind.
ghost use Rattle.std.specs.Prelude.{◌≡◌};
ghost use Rattle.terms.specs.Limits.{max_places};
ghost use Rattle.arbiter.specs.ByValue.{held};
ghost use Rattle.lead_parts.specs.Lead.{lead_query, lead_answer_of};

use arbiter::state::Arbiter;
use layout::lent::Words;
use queries::lead::lead_words;
use terms::refusals::Cause;

// Refused: 23, 11, 13 (clause 13.10).
#[tactic(auto, using(arbiter::proofs::ByValue::right_full, arbiter::proofs::ByValue::room_full))]
pub fn lead(s: Arbiter, place: usize, log: &[u8]) -> Result<i64, Cause>
    ensures { lead_answer_of result ≡ lead_query max_places (held s) place log.now }
{
    lead_words(&Words::of(&s.words), place, log)
}
