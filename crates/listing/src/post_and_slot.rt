// A slot with its counts (clause 14.1).
ghost use Rattle.std.specs.Prelude.{◌≡◌};
ghost use Rattle.terms.specs.Limits.{max_places};
ghost use Rattle.arbiter.specs.ByValue.{held, result_of};
ghost use Rattle.calls.specs.ByValue.{slot_result_of};
ghost use Rattle.listing.specs.Listing.{posted, post_and_slot};

use arbiter::state::Arbiter;
use calls::slot::slot;
use moves::posts::post_words;
use terms::answers::{Outcome, Slot};
use terms::units::Transfers;

// The counts are posted from place 0 on, until one is refused, whose state and refusal are the outcome. Each post is lent the words: a post
// by value would copy the whole state in and out again, place by place.
#[tactic(auto, using(arbiter::proofs::ByValue::right_full, arbiter::proofs::ByValue::room_full, crate::proofs::Posting::posting_stop), unfolding(crate::specs::Listing::posted))]
fn post_counts(mut s: Arbiter, counts: &[u32]) -> Outcome<Arbiter, ()>
    ensures { result_of result ≡ posted max_places (held s) 0 counts.now }
{
    for (p, count) in counts.iter().enumerate() {
        match post_words(&mut s.words, p, Transfers(*count as u64)) {
            Ok(()) => {}
            Err(why) => {
                return Outcome {
                    after: s,
                    answer: Err(why),
                };
            }
        }
    }
    Outcome {
        after: s,
        answer: Ok(()),
    }
}

// The counts are posted, and then the slot is done. Refused, the state goes back beside the refusal, which `?` would not hand on.
#[tactic(auto, unfolding(crate::specs::Listing::post_and_slot))]
pub(crate) fn post_and_slot(s: Arbiter, counts: &[u32]) -> Outcome<Arbiter, Slot>
    ensures { slot_result_of result ≡ post_and_slot max_places (held s) counts.now }
{
    let Outcome { after, answer } = post_counts(s, counts);
    match answer {
        Ok(()) => slot(after),
        Err(why) => Outcome {
            after,
            answer: Err(why),
        },
    }
}
