// An old state is laid into words of today, with zeros behind it, and tested there; or the words all become 0.
ghost use Rattle.std.specs.Prelude.{◌≡◌, true, ◌&&◌, ◌-◌, leb};
ghost use Rattle.terms.specs.Limits.{max_places, old_places};
ghost use Rattle.terms.specs.Answers.{answer_of};
ghost use Rattle.terms.specs.State.{sound};
ghost use Rattle.terms.specs.Longer.{longer};
ghost use Rattle.carrying.specs.Carry.{as_state, carry};
ghost use Rattle.layout.specs.Words.{room_of_words, state_of};
ghost use Rattle.carrying.specs.OldWords.{old_room_of, old_state_of};
ghost use Rattle.carrying.specs.Fits.{fits_into};

use crate::old_words::{
    old_account, old_count, old_denominator, old_length_is_right, old_room_of, old_row,
    old_slot_number,
};
use arbiter::state::Arbiter;
use layout::laying::lay_head;
use layout::lent::Words;
use layout::words::{count, length_is_right, put_account, put_row, put_slot_number, room_of};
use opening::turn_down;
use soundness::soundness::is_sound;
use terms::refusals::{Cause, StateRefusal};

// Whether both are lengths of a state, and there is room for as many places as there was.
#[tactic(auto, using(crate::proofs::Fits::old_right, layout::proofs::RoundTrip::right), unfolding(crate::specs::Fits::fits_into))]
pub fn lengths_fit(old: &[u64], words: &[u64]) -> bool
    ensures { result ≡ fits_into old_places max_places old.now words.now }
{
    old_length_is_right(old)
        && length_is_right(words, Arbiter::MAX_PLACES)
        && old_room_of(old) <= room_of(words)
}

// Whatever the old words hold: test 23 comes later. A function of its own beside the other layings: layout::laying says why.
#[tactic(auto, using(crate::proofs::Fits::fit, layout::proofs::RoundTrip::right))]
fn lay_old(old: &[u64], words: &mut [u64])
    requires { fits_into old_places max_places old.now words.old ≡ true }
    ensures { state_of words.new ≡ longer (room_of_words words.old - old_room_of old.now) (as_state (old_state_of old.now)) }
{
    let room = old_room_of(old);
    lay_head(words, old_denominator(old), old_count(old));
    put_slot_number(words, old_slot_number(old));
    for p in 0..room {
        put_row(words, p, old_row(old, p));
        put_account(words, p, old_account(old, p));
    }
}

// Test 23 with a limit below the room. Past the limit the words are 0, and N may not count them in, whatever a place of zeros is held to be.
#[tactic(auto, using(admission::proofs::Rows::head_there, admission::proofs::Rows::count_word))]
fn is_sound_within(words: &Words, limit: usize) -> bool
    ensures { result ≡ (leb (state_of words.now).table.count limit && sound (room_of_words words.now) (state_of words.now)) }
{
    count(words.slice()) <= limit && is_sound(words)
}

// What the words held before does not matter. Refused: 23.
#[tactic(auto, using(crate::proofs::Fits::fit, layout::proofs::Stores::right_stands))]
pub fn carry_words(old: &[u64], words: &mut [u64]) -> Result<(), Cause>
    requires { fits_into old_places max_places old.now words.old ≡ true }
    ensures { record { state = state_of words.new; answer = answer_of result } ≡ carry (old_room_of old.now) (room_of_words words.old) (old_state_of old.now) }
{
    lay_old(old, words);
    if !is_sound_within(&Words::of(words), old_room_of(old)) {
        return turn_down(words, StateRefusal::Unsound.into());
    }
    Ok(())
}
