// What every query about a place is checked for first.
ghost use Rattle.std.specs.Prelude.{◌≡◌, IfOk};
ghost use Rattle.terms.specs.Refusals.{verdict_of};
ghost use Rattle.terms.specs.State.{place_verdict};
ghost use Rattle.layout.specs.Words.{room_of_words, state_of};

use crate::soundness::is_sound;
use admission::checked::CheckedWords;
use layout::lent::Words;
use layout::words::count;
use terms::refusals::{Cause, InputRefusal, StateRefusal};

// 23, then 11: N is a number of places only once the words are known to be a state's.
#[tactic(auto, using(admission::proofs::Rows::head_there, admission::proofs::Rows::count_word, crate::proofs::Places::sound_checked), unfolding(terms::specs::State::place_verdict, terms::specs::Refusals::gate))]
pub fn check_place<'a>(words: &Words<'a>, place: usize) -> Result<CheckedWords<'a>, Cause>
    ensures found { verdict_of result ≡ place_verdict (room_of_words words.now) (state_of words.now) place }
    ensures same { IfOk result (λ w. w ≡ words.now) }
{
    if !is_sound(words) {
        return Err(StateRefusal::Unsound.into());
    }
    let words = words.slice();
    if count(words) <= place {
        return Err(InputRefusal::NoSuchPlace.into());
    }
    Ok(CheckedWords::of(words))
}
