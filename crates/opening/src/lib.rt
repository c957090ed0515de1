// How a start ends, once a table has been laid into the words: they are opened, or all become 0. The length is asked for, as of all words
// that are lent to be written (layout::lent).
#![tactic(auto)]

ghost use Rattle.std.specs.Prelude.{◌≡◌, true, length, replicate};
ghost use Rattle.terms.specs.Limits.{max_places};
ghost use Rattle.terms.specs.Refusals.{refusal_of};
ghost use Rattle.terms.specs.Answers.{answer_of};
ghost use Rattle.terms.specs.Start.{opening, turned_down};
ghost use Rattle.layout.specs.Words.{room_of_words, right_length, state_of};

use layout::words::{burst, clear, put_account, put_slot_number, room_of};
use terms::place::Account;
use terms::refusals::Cause;
use terms::units::{Slots, Transfers};

// Each credit is the burst and each backlog is 0. In a table that passed check 2 the burst past place N-1 is 0 too.
#[tactic(auto, using(crate::proofs::Opened::opening_end, layout::proofs::RoundTrip::right))]
pub fn open(words: &mut [u64], first: Slots)
    requires { right_length max_places words.old ≡ true }
    ensures { state_of words.new ≡ opening (state_of words.old).table first.0 }
{
    let room = room_of(words);
    put_slot_number(words, first);
    for p in 0..room {
        let fresh = Account {
            credit: burst(words, p),
            backlog: Transfers(0),
        };
        put_account(words, p, fresh);
    }
}

// Every word becomes 0, and why.
#[tactic(auto, using(layout::proofs::Laid::cleared_state))]
pub fn turn_down(words: &mut [u64], why: Cause) -> Result<(), Cause>
    ensures cleared { words.new ≡ replicate (length words.old) 0 }
    ensures told { record { state = state_of words.new; answer = answer_of result } ≡ turned_down (room_of_words words.old) (refusal_of why) }
{
    clear(words);
    Err(why)
}
