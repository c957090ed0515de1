// A run: as many slots as a lent log has bytes. The words are tested once, and each slot is lent the log from its own byte on. The length
// is asked for, as of all words that are lent to be written (layout::lent).
ghost use Rattle.std.specs.Prelude.{◌≡◌, true, [], ◌∷◌, ◌+◌, ◌≤◌, ◌<◌, length};
ghost use Rattle.lists.specs.Overwriting.{written_over};
ghost use Rattle.terms.specs.Limits.{max_places, max_slot};
ghost use Rattle.rule.specs.Calls.{grant_of, advanced};
ghost use Rattle.rule.specs.Log.{grant_byte, slots_state, slots_log, run};
ghost use Rattle.terms.specs.Answers.{answer_of};
ghost use Rattle.layout.specs.Words.{room_of_words, right_length, state_of};
ghost use Rattle.moves.specs.Moves.{Ready};

use crate::slots::advance;
use arbiter::state::Arbiter;
use layout::lent::Words;
use layout::words::{count, denominator, slot_number};
use soundness::soundness::is_sound;
use terms::refusals::{Cause, InputRefusal, StateRefusal};

// What the log says of a slot: the place granted, or 255, a byte as clause 6.1 has it.
fn grant_byte(granted: Option<usize>) -> u8
    requires { grant_byte granted < 256 }
    ensures { result ≡ grant_byte granted }
{
    granted.map_or(255, |p| p as u8)
}

// One slot, and its byte at the start of the rest of the log.
#[tactic(auto, using(crate::proofs::Going::log_steps))]
fn log_slot(words: &mut [u64], d: u64, n: usize, rest: &mut [u8])
    requires { Ready words.old d n × (1 ≤ length rest.old) }
    ensures state { state_of words.new ≡ advanced (state_of words.old) (grant_of (state_of words.old)) }
    ensures log { rest.new ≡ written_over (grant_byte (grant_of (state_of words.old)) ∷ []) rest.old }
{
    rest[0] = grant_byte(advance(words, d, n));
}

// As many slots as the log has bytes.
#[tactic(auto, using(crate::proofs::Going::run_steps))]
fn log_slots(words: &mut [u64], d: u64, n: usize, log: &mut [u8])
    requires { Ready words.old d n × ((state_of words.old).slot.0 + length log.old ≤ max_slot) }
    ensures state { state_of words.new ≡ slots_state (length log.old) (state_of words.old) }
    ensures log { log.new ≡ slots_log (length log.old) (state_of words.old) }
{
    for at in 0..log.len() {
        log_slot(words, d, n, &mut log[at..]);
    }
}

// Refused: 23, 13, 22. Then no byte is written.
#[tactic(auto, using(crate::proofs::Going::run_ends))]
pub fn run_words(words: &mut [u64], log: &mut [u8]) -> Result<(), Cause>
    requires { right_length max_places words.old ≡ true }
    ensures { record { state = state_of words.new; answer = answer_of result; log = log.new } ≡ run (room_of_words words.old) (state_of words.old) log.old }
{
    if !is_sound(&Words::of(words)) {
        return Err(StateRefusal::Unsound.into());
    }
    if Arbiter::MAX_INPUT < log.len() {
        return Err(InputRefusal::TooLong.into());
    }
    if Arbiter::MAX_SLOT - slot_number(words).0 < log.len() as u64 {
        return Err(StateRefusal::SlotLimit.into());
    }
    let d = denominator(words);
    let n = count(words);
    log_slots(words, d, n, log);
    Ok(())
}
