// The exported calls that ask about a state and leave it as it is: figures, a chain figure, lead, the table's bytes, an account, and where
// the line stands. Each fills its answer in a `match`: a `map` does not say that what its closure borrowed stays where it is not called.
ghost use Rattle.std.specs.Prelude.{◌≡◌};
ghost use Rattle.terms.specs.Limits.{max_places};
ghost use Rattle.justrave.specs.Exported.{figured, chained, led, wrote, account_exported, standing_exported};

use crate::lent::{lent, put_two};
use chains::chain::chain_words;
use layout::words::room_of;
use outcomes::codes::{WRONG_LENGTH, refusal_code};
use queries::figures::figures_words;
use queries::lead::lead_words;
use queries::look::{account_words, standing_words};
use queries::write::admit_and_write;
use soundness::soundness::is_sound;
use terms::refusals::StateRefusal;
use terms::units::Transfers;

// The answer is the reported wait and the finish figure for j transfers (clause 7.4). Refused: 255, 23, 11, 5 (clause 13.11).
#[tactic(auto, using(crate::proofs::Lengths::on_shut, crate::proofs::Lengths::on_open, crate::proofs::Queries::figures_below), unfolding(crate::specs::Exported::figured))]
pub fn justrave_figures(state: &[u64], place: usize, j: u64, answer: &mut [u64]) -> u64
    ensures { record { answer = answer.new; outcome = result } ≡ figured max_places state.now place j answer.old }
{
    let Some(words) = lent(state, answer.len() == 2) else {
        return WRONG_LENGTH;
    };
    match figures_words(&words, place, Transfers(j)) {
        Ok(f) => {
            put_two(f.wait.0, f.finish.0, answer);
            0
        }
        Err(c) => refusal_code(c),
    }
}

// The answer is the chain figure of the place (clause 9.2). The names are one byte for each place that the words have room for: the place
// that it follows, or 255 for nobody; those past the table's places are not read. Refused: 255, 23, 11, 16 (clause 13.12).
#[tactic(auto, using(crate::proofs::Lengths::on_shut, crate::proofs::Lengths::on_open, crate::proofs::Lengths::lent_head, crate::proofs::Queries::chain_below, crate::proofs::Queries::one_put), unfolding(crate::specs::Exported::chained))]
pub fn justrave_chain(state: &[u64], place: usize, names: &[u8], answer: &mut [u64]) -> u64
    ensures { record { answer = answer.new; outcome = result } ≡ chained max_places state.now place names.now answer.old }
{
    let Some(words) = lent(state, answer.len() == 1) else {
        return WRONG_LENGTH;
    };
    if names.len() != room_of(state) {
        return WRONG_LENGTH;
    }
    match chain_words(&words, place, names) {
        Ok(f) => {
            answer[0] = f.0;
            0
        }
        Err(c) => refusal_code(c),
    }
}

// The answer is the lead of the place over the log (clause 6.3). Refused: 255, 23, 11, 13 (clause 13.10).
#[tactic(auto, using(crate::proofs::Lengths::on_shut, crate::proofs::Lengths::on_open, crate::proofs::Queries::lead_below, crate::proofs::Queries::one_put), unfolding(crate::specs::Exported::led))]
pub fn justrave_lead(state: &[u64], place: usize, log: &[u8], answer: &mut [i64]) -> u64
    ensures { record { answer = answer.new; outcome = result } ≡ led max_places state.now place log.now answer.old }
{
    let Some(words) = lent(state, answer.len() == 1) else {
        return WRONG_LENGTH;
    };
    match lead_words(&words, place, log) {
        Ok(x) => {
            answer[0] = x;
            0
        }
        Err(c) => refusal_code(c),
    }
}

// The table's bytes into the buffer; the answer is how many (clause 3.5). Refused: 255, 23, then the writer's, 17, 7 and 14 (clause 13.4).
#[tactic(auto, using(crate::proofs::Lengths::on_shut, crate::proofs::Lengths::on_open, crate::proofs::Queries::write_below, crate::proofs::Queries::one_put), unfolding(crate::specs::Exported::wrote))]
pub fn justrave_write(state: &[u64], buffer: &mut [u8], answer: &mut [u64]) -> u64
    ensures { record { buffer = buffer.new; answer = answer.new; outcome = result } ≡ wrote max_places state.now buffer.old answer.old }
{
    let Some(words) = lent(state, answer.len() == 1) else {
        return WRONG_LENGTH;
    };
    if !is_sound(&words) {
        return refusal_code(StateRefusal::Unsound.into());
    }
    match admit_and_write(&words, buffer) {
        Ok(bytes) => {
            answer[0] = bytes as u64;
            0
        }
        Err(c) => refusal_code(c),
    }
}

// The answer is the credit and the backlog of the place (clause 11.3). Refused: 255, 23, 11 (clause 13.13).
#[tactic(auto, using(crate::proofs::Lengths::on_shut, crate::proofs::Lengths::on_open, crate::proofs::Queries::account_below), unfolding(crate::specs::Exported::account_exported))]
pub fn justrave_account(state: &[u64], place: usize, answer: &mut [u64]) -> u64
    ensures { record { answer = answer.new; outcome = result } ≡ account_exported max_places state.now place answer.old }
{
    let Some(words) = lent(state, answer.len() == 2) else {
        return WRONG_LENGTH;
    };
    match account_words(&words, place) {
        Ok(a) => {
            put_two(a.credit, a.backlog.0, answer);
            0
        }
        Err(c) => refusal_code(c),
    }
}

// The answer is the slot number and N (clause 11.3). Refused: 255, 23 (clause 13.13).
#[tactic(auto, using(crate::proofs::Lengths::on_shut, crate::proofs::Lengths::on_open, crate::proofs::Queries::standing_below), unfolding(crate::specs::Exported::standing_exported))]
pub fn justrave_standing(state: &[u64], answer: &mut [u64]) -> u64
    ensures { record { answer = answer.new; outcome = result } ≡ standing_exported max_places state.now answer.old }
{
    let Some(words) = lent(state, answer.len() == 2) else {
        return WRONG_LENGTH;
    };
    match standing_words(&words) {
        Ok(s) => {
            put_two(s.slot.0, s.count as u64, answer);
            0
        }
        Err(c) => refusal_code(c),
    }
}
