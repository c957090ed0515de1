// The exported calls that change a state: post, slot and run; how many words a state has; and which layout they are in. A refusal is a
// number for C, so that each `match` ends here.
ghost use Rattle.std.specs.Prelude.{◌≡◌};
ghost use Rattle.terms.specs.Limits.{max_places};
ghost use Rattle.layout.specs.Words.{layout_version};
ghost use Rattle.justrave.specs.Exported.{size_of, posted, slotted, ran};

use crate::lent::{lengths_hold, put_two};
use arbiter::state::Arbiter;
use layout::words::{LAYOUT, words_of};
use moves::posts::post_words;
use moves::runs::run_words;
use moves::slots::slot_words;
use outcomes::codes::{WRONG_LENGTH, outcome_code, place_code, refusal_code};
use terms::units::Transfers;

// Which layout the words are in (clause 15.6). Words are kept with this number, since lengths of different layouts can agree.
pub fn justrave_layout() -> u64
    ensures { result ≡ layout_version }
{
    LAYOUT
}

// How many words a state with room for so many places has (clause 15.1); 0 for a room that no state has.
pub fn justrave_state_words(places: usize) -> usize
    ensures { result ≡ size_of max_places places }
{
    if places < 1 || Arbiter::MAX_PLACES < places {
        return 0;
    }
    words_of(places)
}

// A post (clause 5.1). Refused: 255, 23, 11, 21 (clause 13.7).
#[tactic(auto, using(crate::proofs::Lengths::on_shut, crate::proofs::Lengths::on_open, crate::proofs::Changed::stated_so, crate::proofs::Changed::called_below), unfolding(crate::specs::Exported::posted))]
pub fn justrave_post(state: &mut [u64], place: usize, count: u64) -> u64
    ensures { record { words = state.new; outcome = result } ≡ posted max_places state.old place count }
{
    if !lengths_hold(state, true) {
        return WRONG_LENGTH;
    }
    outcome_code(post_words(state, place, Transfers(count)))
}

// The answer is the stamp, and the place granted + 1 or 0 for idle (clause 15.5). Refused: 255, 23, 22 (clause 13.8).
#[tactic(auto, using(crate::proofs::Lengths::on_shut, crate::proofs::Lengths::on_open, crate::proofs::Changed::slot_so, crate::proofs::Changed::called_below, crate::proofs::Changed::granted_below), unfolding(crate::specs::Exported::slotted))]
pub fn justrave_slot(state: &mut [u64], answer: &mut [u64]) -> u64
    ensures { record { words = state.new; answer = answer.new; outcome = result } ≡ slotted max_places state.old answer.old }
{
    if !lengths_hold(state, answer.len() == 2) {
        return WRONG_LENGTH;
    }
    match slot_words(state) {
        Ok(s) => {
            put_two(s.stamp.0, place_code(s.granted), answer);
            0
        }
        Err(c) => refusal_code(c),
    }
}

// As many slots as the log has bytes (clause 6.1). Refused: 255, 23, 13, 22 (clause 13.9).
#[tactic(auto, using(crate::proofs::Lengths::on_shut, crate::proofs::Lengths::on_open, crate::proofs::Changed::run_so, crate::proofs::Changed::run_below), unfolding(crate::specs::Exported::ran))]
pub fn justrave_run(state: &mut [u64], log: &mut [u8]) -> u64
    ensures { record { words = state.new; log = log.new; outcome = result } ≡ ran max_places state.old log.old }
{
    if !lengths_hold(state, true) {
        return WRONG_LENGTH;
    }
    outcome_code(run_words(state, log))
}
