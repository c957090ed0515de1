// The exported calls that make a state: a start from a table's bytes, one from a table given as numbers, and the carrying over of an old
// state. Refused, every word is 0: 255 alone leaves them as they were (clause 1.6).
ghost use Rattle.std.specs.Prelude.{◌≡◌};
ghost use Rattle.terms.specs.Limits.{max_places, old_places};
ghost use Rattle.justrave.specs.Exported.{started, started_of, carried_over};

use crate::lent::lengths_hold;
use carrying::carry::{carry_words, lengths_fit};
use layout::numbers::numbers_are_right;
use layout::words::room_of;
use outcomes::codes::{WRONG_LENGTH, outcome_code};
use starts::bytes::start_bytes;
use starts::numbers::start_numbers;
use terms::units::Slots;

// The state of a table's bytes and a first slot number (clause 4.2). Refused: 255; 8, 9 and 1 to 5 number by number, 17 behind each place;
// 10, 6, 7, 12 (clause 13.3).
#[tactic(auto, using(crate::proofs::Started::leaves_shut, crate::proofs::Started::leaves_open, crate::proofs::Changed::stated_so, crate::proofs::Started::bytes_below), unfolding(crate::specs::Exported::started))]
pub fn justrave_start(table: &[u8], first: u64, state: &mut [u64]) -> u64
    ensures { record { words = state.new; outcome = result } ≡ started max_places table.now first state.old }
{
    if !lengths_hold(state, true) {
        return WRONG_LENGTH;
    }
    outcome_code(start_bytes(table, Slots(first), state))
}

// The same for a table given as numbers, for as many places as the words have room. Refused: 255, 1 to 7, 17, 12 (clause 13.3).
#[tactic(auto, using(crate::proofs::Started::leaves_shut, crate::proofs::Started::leaves_open, crate::proofs::Lengths::lent_head, crate::proofs::Lengths::lent_room, crate::proofs::Changed::stated_so, crate::proofs::Started::numbers_below), unfolding(crate::specs::Exported::started_of))]
pub fn justrave_start_numbers(numbers: &[u32], first: u64, state: &mut [u64]) -> u64
    ensures { record { words = state.new; outcome = result } ≡ started_of max_places numbers.now first state.old }
{
    if !lengths_hold(state, true) || !numbers_are_right(numbers, room_of(state)) {
        return WRONG_LENGTH;
    }
    outcome_code(start_numbers(numbers, Slots(first), state))
}

// The state of an old state's words, in words with room for at least as many places (clause 11.4); the old words are only read. Refused:
// 255, 23 (clause 13.14).
#[tactic(auto, using(crate::proofs::Started::leaves_shut, crate::proofs::Started::leaves_open, crate::proofs::Started::carry_right, crate::proofs::Changed::stated_so, crate::proofs::Started::carry_below), unfolding(crate::specs::Exported::carried_over))]
pub fn justrave_carry(old: &[u64], state: &mut [u64]) -> u64
    ensures { record { words = state.new; outcome = result } ≡ carried_over old_places max_places old.now state.old }
{
    if !lengths_fit(old, state) {
        return WRONG_LENGTH;
    }
    outcome_code(carry_words(old, state))
}
