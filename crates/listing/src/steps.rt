// The steps of slotlist (section 14): each puts its text at the start of a lent buffer, and hands on the state and the rest of the input.
// The room of the buffer is asked for: it is lent to be written, and a type behind `&mut` would not tell the lender what he gets back
// (layout::lent).
ghost use Rattle.std.specs.Prelude.{◌≡◌, true, ◌≤◌, length};
ghost use Rattle.terms.specs.Limits.{max_places};
ghost use Rattle.terms.specs.Refusals.{refusal_of};
ghost use Rattle.terms.specs.Answers.{slot_answer_of};
ghost use Rattle.terms.specs.State.{sound};
ghost use Rattle.terms.specs.Start.{no_state};
ghost use Rattle.arbiter.specs.ByValue.{held};
ghost use Rattle.lines.specs.Lines.{refused_line};
ghost use Rattle.reads.specs.Reads.{counts_read};
ghost use Rattle.listing.specs.Listing.{last, slot_output, slot_step, step, first_step};
ghost use Rattle.listing.specs.Room.{line_room, in_buffer, written, outcome_of, wrote_by};

use crate::post_and_slot::post_and_slot;
use admission::counted::CountedWords;
use arbiter::state::Arbiter;
use layout::lent::Words;
use layout::words::{count, slot_number};
use lines::lines::{put_end, put_header, put_refused, put_slot};
use reads::beginning::begin;
use reads::counts::read_counts;
use soundness::soundness::is_sound;
use terms::answers::{Outcome, Slot};
use terms::refusals::{Cause, StateRefusal};

// Room for any step's text: a line has at most a stamp, a place and a credit to each place, of 20 digits and a byte behind them.
pub const LINE_ROOM: usize = (2 + Arbiter::MAX_PLACES) * 21;

// How many bytes of the buffer a step wrote, and the rest of the input if it goes on. Without room it does nothing.
#[derive(Clone, Copy)]
pub enum Output<'a> {
    More(usize, &'a [u8]),
    Last(usize),
    NoRoom,
}

#[derive(Clone, Copy)]
pub struct StepResult<'a> {
    pub state: Arbiter,
    pub output: Output<'a>,
}

// The refusal's line, and the state as it was.
#[tactic(auto, using(crate::proofs::Telling::refused_few, crate::proofs::Telling::text_taken))]
fn refuse<'a>(s: Arbiter, why: Cause, out: &mut [u8]) -> StepResult<'a>
    requires { line_room max_places ≤ length out.old }
    ensures value { outcome_of result out.new ≡ written (last (refused_line (refusal_of why)) (held s)) out.old }
    ensures wrote { wrote_by result.output ≤ length out.old }
{
    StepResult {
        state: s,
        output: Output::Last(put_refused(why, out)),
    }
}

// What a slot came to, behind whose counts stands this rest: its line, or the refusal's. A refusal is a line too, so that no `?` hands it on.
#[tactic(auto, using(crate::proofs::Telling::counted, crate::proofs::Telling::slot_few, crate::proofs::Telling::text_taken), unfolding(crate::specs::Listing::slot_output))]
fn tell<'a>(
    before: Arbiter,
    done: Outcome<Arbiter, Slot>,
    rest: &'a [u8],
    out: &mut [u8],
) -> StepResult<'a>
    requires { (line_room max_places ≤ length out.old) × ((held done.after).table.count ≤ max_places) }
    ensures value { outcome_of result out.new ≡ written (slot_output (held before) (slot_answer_of done.answer) (held done.after) rest.now) out.old }
    ensures wrote { wrote_by result.output ≤ length out.old }
{
    // taken apart first: the compiler copies the state twice more where `done.after` is named twice
    let Outcome { after, answer } = done;
    match answer {
        Ok(slot) => StepResult {
            state: after,
            output: Output::More(put_slot(slot, &CountedWords::of(&after.words), out), rest),
        },
        Err(why) => refuse(before, why, out),
    }
}

// A slot of a sound state: its counts are read and posted, and the slot is done.
#[tactic(auto, using(crate::proofs::Telling::sound_few, crate::proofs::Telling::post_and_slot_few, admission::proofs::Rows::count_word), unfolding(crate::specs::Listing::slot_step))]
fn slot_step<'a>(s: Arbiter, rest: &'a [u8], out: &mut [u8]) -> StepResult<'a>
    requires { (line_room max_places ≤ length out.old) × (sound max_places (held s) ≡ true) }
    ensures value { outcome_of result out.new ≡ written (slot_step max_places (held s) (counts_read (held s).table.count rest.now)) out.old }
    ensures wrote { wrote_by result.output ≤ length out.old }
{
    let n = count(&s.words);
    match read_counts(rest, n) {
        // The counts, and the rest of the bytes. The proof does not cover a pattern that takes the array out of the pair (tried).
        Ok(read) => tell(s, post_and_slot(s, &read.0[..n]), read.1, out),
        Err(why) => refuse(s, why, out),
    }
}

// One slot from the rest of the input, or the end. Its line may be a refusal's: 23, and of clause 13.15 8, 9, 21, 22.
#[tactic(auto, using(arbiter::proofs::ByValue::right_full, arbiter::proofs::ByValue::room_full, moves::proofs::Readiness::the_slot, crate::proofs::Telling::end_few, crate::proofs::Telling::text_taken), unfolding(crate::specs::Listing::step))]
pub fn step<'a>(s: Arbiter, rest: &'a [u8], out: &mut [u8]) -> StepResult<'a>
    ensures value { outcome_of result out.new ≡ in_buffer max_places (step max_places (held s) rest.now) (held s) out.old }
    ensures wrote { wrote_by result.output ≤ length out.old }
{
    if out.len() < LINE_ROOM {
        return StepResult {
            state: s,
            output: Output::NoRoom,
        };
    }
    if !is_sound(&Words::of(&s.words)) {
        return refuse(s, StateRefusal::Unsound.into(), out);
    }
    if rest.len() == 0 {
        return StepResult {
            state: s,
            output: Output::Last(put_end(slot_number(&s.words), out)),
        };
    }
    slot_step(s, rest, out)
}

// The header, and behind it the refusal's line if the input begins with a fault (clause 13.15): 13, 8, 9, and the table's.
#[tactic(auto, using(crate::proofs::Telling::header_length, crate::proofs::Telling::refused_few, crate::proofs::Telling::text_taken, lists::proofs::Overwriting::length_over, lists::proofs::Overwriting::written_behind), unfolding(crate::specs::Listing::first_step, crate::specs::Listing::headed))]
pub fn first_step<'a>(input: &'a [u8], out: &mut [u8]) -> StepResult<'a>
    ensures value { outcome_of result out.new ≡ in_buffer max_places (first_step max_places input.now) (no_state max_places) out.old }
    ensures wrote { wrote_by result.output ≤ length out.old }
{
    if out.len() < LINE_ROOM {
        return StepResult {
            state: Arbiter::none(),
            output: Output::NoRoom,
        };
    }
    let at = put_header(out);
    match begin(input) {
        Ok((state, rest)) => StepResult {
            state,
            output: Output::More(at, rest),
        },
        Err(why) => StepResult {
            state: Arbiter::none(),
            output: Output::Last(at + put_refused(why, &mut out[at..])),
        },
    }
}
