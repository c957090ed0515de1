// The lead of a place over a log.
ghost use Rattle.std.specs.Prelude.{◌≡◌};
ghost use Rattle.layout.specs.Words.{room_of_words, state_of};
ghost use Rattle.lead_parts.specs.Lead.{lead_query, lead_answer_of};

use arbiter::input::check_input;
use layout::lent::Words;
use layout::words::{denominator, rate};
use lead_parts::{count_grants, difference};
use soundness::place::check_place;
use terms::refusals::Cause;
use terms::units::Slots;

// Refused: 23, 11, 13.
#[tactic(auto, using(admission::proofs::Rows::head_there, crate::proofs::Queries::query_there, crate::proofs::Queries::query_numbers, lead_parts::proofs::Counts::bytes_most), unfolding(lead_parts::specs::Lead::lead_query, lead_parts::specs::Lead::lead_verdict, terms::specs::Refusals::then, terms::specs::Input::input_verdict, terms::specs::Refusals::gate))]
pub fn lead_words(words: &Words, place: usize, log: &[u8]) -> Result<i64, Cause>
    ensures { lead_answer_of result ≡ lead_query (room_of_words words.now) (state_of words.now) place log.now }
{
    let checked = check_place(words, place)?;
    check_input(log.len())?;
    let words = checked.slice();
    let d = denominator(words);
    let n = rate(words, place);
    let grants = count_grants(log, place);
    let slots = Slots(log.len() as u64);
    Ok(difference(d, grants, n, slots))
}
