// A start and a list of calls from it (clause 10.8), each on what its forerunner handed back. Calls and answers are plain numbers in lists
// that the caller lends: there is no heap to keep them on, and every language can lend a list of numbers.
#![tactic(auto)]

ghost use Rattle.std.specs.Prelude.{◌≡◌};
ghost use Rattle.terms.specs.Limits.{max_places};
ghost use Rattle.terms.specs.Refusals.{refusal_of};
ghost use Rattle.terms.specs.Answers.{refused, answer_of, slot_answer_of};
ghost use Rattle.arbiter.specs.ByValue.{held, given};
ghost use Rattle.rule.specs.Calls.{called};
ghost use Rattle.replay.specs.Replay.{call_of, asked, answer_words, after_calls, calls_from, replay, replayed_of};

use arbiter::state::Arbiter;
use arbiter::table::Table;
use calls::post::post;
use calls::slot::slot;
use terms::answers::{Outcome, Slot};
use terms::refusals::Cause;
use terms::units::{Slots, Transfers};

// A call, as its three numbers say.
#[derive(Clone, Copy)]
enum Call {
    Slot,
    Post(usize, Transfers),
}

impl Call {
    // 0 is a slot, which passes over the last two numbers, and any other number a post.
    #[tactic(auto, unfolding(crate::specs::Replay::call_of))]
    fn read(what: u32, place: u32, count: u32) -> Call
        ensures { asked result ≡ call_of what place count }
    {
        match what {
            0 => Call::Slot,
            _ => Call::Post(place as usize, Transfers(u64::from(count))),
        }
    }
}

// No refusal of a call names a place, and its number says whether the input or the state caused it: the number is all there is.
#[tactic(auto, unfolding(crate::specs::Replay::answer_words))]
fn refusal_numbers(c: Cause) -> [u64; 3]
    ensures { result ≡ answer_words (refused (refusal_of c)) }
{
    [3, u64::from(c.refusal().number), 0]
}

#[tactic(auto, unfolding(crate::specs::Replay::answer_words))]
fn post_numbers(answer: Result<(), Cause>) -> [u64; 3]
    ensures { result ≡ answer_words (answer_of answer) }
{
    match answer {
        Ok(()) => [0, 0, 0],
        Err(c) => refusal_numbers(c),
    }
}

#[tactic(auto, unfolding(crate::specs::Replay::answer_words))]
fn slot_numbers(answer: Result<Slot, Cause>) -> [u64; 3]
    ensures { result ≡ answer_words (slot_answer_of answer) }
{
    match answer {
        Ok(
            Slot {
                stamp,
                granted: Some(p),
            },
        ) => [1, stamp.0, p as u64],
        Ok(
            Slot {
                stamp,
                granted: None,
            },
        ) => [2, stamp.0, 0],
        Err(c) => refusal_numbers(c),
    }
}

// A call: the state that it hands back, and its answer as three numbers.
fn make(s: Arbiter, call: Call) -> (Arbiter, [u64; 3])
    ensures state { held result.0 ≡ (called max_places (held s) (asked call)).state }
    ensures answer { result.1 ≡ answer_words (called max_places (held s) (asked call)).answer }
{
    match call {
        Call::Slot => {
            let Outcome { after, answer } = slot(s);
            (after, slot_numbers(answer))
        }
        Call::Post(place, count) => {
            let Outcome { after, answer } = post(s, place, count);
            (after, post_numbers(answer))
        }
    }
}

// Every call that its answer has room for. A loop and no recursion: a list may be long, and each turn would keep a state. It goes by the
// index: over the answers' chunks, lent for writing, no fact says what the whole holds when they are done.
fn make_calls(mut s: Arbiter, calls: &[u32], answers: &mut [u64]) -> Arbiter
    ensures { after_calls (held result) answers.new ≡ calls_from max_places (held s) calls.now answers.old }
{
    for i in 0..(calls.len() / 3).min(answers.len() / 3) {
        let at = 3 * i;
        let (after, numbers) = make(s, Call::read(calls[at], calls[at + 1], calls[at + 2]));
        s = after;
        answers[at..at + 3].copy_from_slice(&numbers);
    }
    s
}

// Clause 10.8: a start, and the calls from it, as many as their answers have room for. The state handed back is the one after the calls,
// and the answer is the start's; a refused start makes no call and writes nothing.
#[tactic(auto, unfolding(crate::specs::Replay::replay, crate::specs::Replay::continued))]
pub fn replay(t: Table, first: Slots, calls: &[u32], answers: &mut [u64]) -> Outcome<Arbiter, ()>
    ensures { replayed_of result answers.new ≡ replay max_places (given t) first.0 calls.now answers.old }
{
    let mut begun = Arbiter::start(t, first);
    if begun.answer.is_ok() {
        begun.after = make_calls(begun.after, calls, answers);
    }
    begun
}
