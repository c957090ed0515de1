// A slot: it grants a place or none, every account moves on, and the slot number goes up by 1. The length is asked for, as of all words
// that are lent to be written (layout::lent). D and N go beside the words that they are of: they are read once for a run.
ghost use Rattle.std.specs.Prelude.{◌≡◌, true};
ghost use Rattle.terms.specs.Limits.{max_places};
ghost use Rattle.rule.specs.Calls.{slot, called, grant_of, advanced};
ghost use Rattle.terms.specs.Answers.{slot_answer_of};
ghost use Rattle.layout.specs.Words.{room_of_words, right_length, state_of};
ghost use Rattle.moves.specs.Moves.{Ready};

use arbiter::state::Arbiter;
use layout::lent::Words;
use layout::words::{count, denominator, put_slot_number, slot_number};
use soundness::soundness::is_sound;
use terms::answers::Slot;
use terms::refusals::{Cause, StateRefusal};
use terms::units::Slots;
use walk::slot::one_slot;

// One slot of words that passed test 23, whose D and N are these.
#[tactic(auto, using(crate::proofs::Readiness::slot_steps))]
pub(crate) fn advance(words: &mut [u64], d: u64, n: usize) -> Option<usize>
    requires { Ready words.old d n }
    ensures grant { result ≡ grant_of (state_of words.old) }
    ensures state { state_of words.new ≡ advanced (state_of words.old) (grant_of (state_of words.old)) }
{
    let at = slot_number(words);
    let granted = one_slot(words, d, n);
    put_slot_number(words, Slots(at.0 + 1));
    granted
}

// Refused: 23, 22.
#[tactic(auto, using(crate::proofs::Going::slot_ends))]
pub fn slot_words(words: &mut [u64]) -> Result<Slot, Cause>
    requires { right_length max_places words.old ≡ true }
    ensures { record { state = state_of words.new; answer = slot_answer_of result } ≡ called (room_of_words words.old) (state_of words.old) slot }
{
    if !is_sound(&Words::of(words)) {
        return Err(StateRefusal::Unsound.into());
    }
    let stamp = slot_number(words);
    if Arbiter::MAX_SLOT <= stamp.0 {
        return Err(StateRefusal::SlotLimit.into());
    }
    let d = denominator(words);
    let n = count(words);
    let granted = advance(words, d, n);
    Ok(Slot { stamp, granted })
}
