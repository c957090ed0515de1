// Where each field of an old state stands in its words: layout 2, which stays what it was. layout::words has readers of its own for the words
// of today, since these may change, and an old unit's are read all the same.
ghost use Rattle.std.specs.Prelude.{◌≡◌, ◌+◌, ◌≤◌, length, get_or};
ghost use Rattle.terms.specs.Limits.{old_places};
ghost use Rattle.carrying.specs.Carry.{old_row, old_account};
ghost use Rattle.carrying.specs.OldWords.{old_word_count, old_room_of, old_right_length, old_place_in};

use arbiter::old::OldArbiter;
use arbiter::state::Arbiter;
use terms::place::{Account, Requestor};
use terms::units::{Slots, Transfers};

#[tactic(auto, unfolding(crate::specs::OldWords::old_room_of))]
pub fn old_room_of(words: &[u64]) -> usize
    requires { 3 ≤ length words.now }
    ensures { result ≡ old_room_of words.now }
{
    (words.len() - OldArbiter::HEAD) / OldArbiter::PLACE
}

// As many words as an old state has that has room for 1 to the old largest N.
#[tactic(auto, unfolding(crate::specs::OldWords::old_right_length, crate::specs::OldWords::old_room_of))]
pub fn old_length_is_right(words: &[u64]) -> bool
    ensures { result ≡ old_right_length old_places words.now }
{
    if words.len() < OldArbiter::HEAD {
        return false;
    }
    let room = old_room_of(words);
    words.len() == OldArbiter::HEAD + OldArbiter::PLACE * room
        && 1 <= room
        && room <= Arbiter::OLD_PLACES
}

pub fn old_denominator(words: &[u64]) -> u64
    requires { 3 ≤ length words.now }
    ensures { result ≡ get_or words.now 0 0 }
{
    words[0]
}

pub fn old_count(words: &[u64]) -> usize
    requires { 3 ≤ length words.now }
    ensures { result ≡ get_or words.now 1 0 }
{
    words[1] as usize
}

pub fn old_slot_number(words: &[u64]) -> Slots
    requires { 3 ≤ length words.now }
    ensures { result ≡ record { 0 = get_or words.now 2 0 } }
{
    Slots(words[2])
}

pub fn old_row(words: &[u64], p: usize) -> Requestor
    requires { old_word_count (p + 1) ≤ length words.now }
    ensures { result ≡ old_row (old_place_in words.now p) }
{
    let at = OldArbiter::HEAD + OldArbiter::PLACE * p;
    Requestor {
        rate: words[at],
        burst: words[at + 1],
        need: Transfers(words[at + 2]),
        within: Slots(words[at + 3]),
    }
}

pub fn old_account(words: &[u64], p: usize) -> Account
    requires { old_word_count (p + 1) ≤ length words.now }
    ensures { result ≡ old_account (old_place_in words.now p) }
{
    let at = OldArbiter::HEAD + OldArbiter::PLACE * p;
    Account {
        credit: words[at + 4],
        backlog: Transfers(words[at + 5]),
    }
}
