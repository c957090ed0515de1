// A start, in place, of the table that was laid into words: its checks, and then the words are opened, or all become 0.
ghost use Rattle.std.specs.Prelude.{◌≡◌, true, false};
ghost use Rattle.terms.specs.Limits.{max_places};
ghost use Rattle.terms.specs.Refusals.{verdict_of, refusal};
ghost use Rattle.terms.specs.Answers.{refused, answer_of};
ghost use Rattle.terms.specs.Start.{start_verdict, start};
ghost use Rattle.layout.specs.Words.{room_of_words, right_length, state_of};
ghost use Rattle.admission.specs.Checked.{table_in};

use crate::admit::{admit, check_length};
use crate::state::Arbiter;
use layout::lent::Words;
use opening::{open, turn_down};
use terms::refusals::{Cause, InputRefusal};
use terms::units::Slots;

// Admission, and then 12.
#[tactic(auto, unfolding(terms::specs::Start::start_verdict, terms::specs::Refusals::gate, terms::specs::Refusals::then))]
fn check_start(words: &Words, first: Slots) -> Result<(), Cause>
    ensures { verdict_of result ≡ start_verdict (room_of_words words.now) (table_in words.now) first.0 }
{
    admit(words.slice())?;
    if Arbiter::MAX_SLOT < first.0 {
        return Err(InputRefusal::FirstSlot.into());
    }
    Ok(())
}

// A start of the table that the words are. Refused: 1 to 7, 17, 12. Words of another length than a state's stay what they were, and get 23.
#[tactic(auto, using(crate::proofs::Verdicts::gate_passes), unfolding(terms::specs::Start::start, terms::specs::Refusals::gate))]
pub fn start_laid(words: &mut [u64], first: Slots) -> Result<(), Cause>
    ensures begun { right_length max_places words.old ≡ true → record { state = state_of words.new; answer = answer_of result } ≡ start (room_of_words words.old) (state_of words.old).table first.0 }
    ensures wrong { right_length max_places words.old ≡ false → (words.new ≡ words.old) × (answer_of result ≡ refused (refusal 23)) }
{
    check_length(words)?;
    if let Err(why) = check_start(&Words::of(words), first) {
        return turn_down(words, why);
    }
    open(words, first);
    Ok(())
}
