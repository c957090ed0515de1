// Where each field of a state stands in its words: D, N and the slot number, and then, place after place, rate, burst, need, within, credit
// and backlog. No other module of the product indexes a state's words. Each function asks for the words that it indexes and no more: those
// who write call them between two stores, on words that no type holds.
ghost use Rattle.std.specs.Prelude.{◌≡◌, ◌+◌, ◌≤◌, length, get_or, drop, replicate};
ghost use Rattle.lists.specs.Sums.{every};
ghost use Rattle.terms.specs.Limits.{max_places};
ghost use Rattle.layout.specs.Words.{is_zero, place_start, word_count, room_of_words, right_length, row_in, account_in, put_head, put_slot_number, put_backlog, put_account, put_row};

use terms::place::{Account, Requestor};
use terms::units::{Slots, Transfers};

// The number of this layout (clause 15.6). Words that were kept under another are another's.
pub const LAYOUT: u64 = 3;

// D, N and the slot number stand ahead of the places.
pub const HEAD: usize = 3;

// Rate, burst, need, within, credit and backlog.
pub const PLACE: usize = 6;

const DENOMINATOR: usize = 0;

const COUNT: usize = 1;

const SLOT: usize = 2;

const BURST: usize = 1;

const NEED: usize = 2;

const WITHIN: usize = 3;

const CREDIT: usize = 4;

const BACKLOG: usize = 5;

// How many words a state with room for so many places has.
pub fn words_of(room: usize) -> usize
    requires { room ≤ max_places }
    ensures { result ≡ word_count room }
{
    HEAD + PLACE * room
}

#[tactic(auto, unfolding(crate::specs::Words::room_of_words))]
pub fn room_of(words: &[u64]) -> usize
    requires { 3 ≤ length words.now }
    ensures { result ≡ room_of_words words.now }
{
    (words.len() - HEAD) / PLACE
}

// As many words as a state has that has room for 1 to so many places.
#[tactic(auto, unfolding(crate::specs::Words::right_length, crate::specs::Words::room_of_words))]
pub fn length_is_right(words: &[u64], most: usize) -> bool
    ensures { result ≡ right_length most words.now }
{
    if words.len() < HEAD {
        return false;
    }
    let room = room_of(words);
    words.len() == HEAD + PLACE * room && 1 <= room && room <= most
}

pub fn denominator(words: &[u64]) -> u64
    requires { 3 ≤ length words.now }
    ensures { result ≡ get_or words.now 0 0 }
{
    words[DENOMINATOR]
}

// N, whatever the word holds: a usize has 64 bits.
pub fn count(words: &[u64]) -> usize
    requires { 3 ≤ length words.now }
    ensures { result ≡ get_or words.now 1 0 }
{
    words[COUNT] as usize
}

pub fn slot_number(words: &[u64]) -> Slots
    requires { 3 ≤ length words.now }
    ensures { result ≡ record { 0 = get_or words.now 2 0 } }
{
    Slots(words[SLOT])
}

pub fn put_slot_number(words: &mut [u64], at: Slots)
    requires { 3 ≤ length words.old }
    ensures { words.new ≡ put_slot_number words.old at.0 }
{
    words[SLOT] = at.0;
}

pub fn put_head(words: &mut [u64], d: u64, n: usize)
    requires { 3 ≤ length words.old }
    ensures { words.new ≡ put_head words.old d n }
{
    words[DENOMINATOR] = d;
    words[COUNT] = n as u64;
}

pub fn rate(words: &[u64], p: usize) -> u64
    requires { word_count (p + 1) ≤ length words.now }
    ensures { result ≡ (row_in words.now p).rate }
{
    words[HEAD + PLACE * p]
}

pub fn burst(words: &[u64], p: usize) -> u64
    requires { word_count (p + 1) ≤ length words.now }
    ensures { result ≡ (row_in words.now p).burst }
{
    words[HEAD + PLACE * p + BURST]
}

pub fn requestor(words: &[u64], p: usize) -> Requestor
    requires { word_count (p + 1) ≤ length words.now }
    ensures { result ≡ row_in words.now p }
{
    let at = HEAD + PLACE * p;
    Requestor {
        rate: words[at],
        burst: words[at + BURST],
        need: Transfers(words[at + NEED]),
        within: Slots(words[at + WITHIN]),
    }
}

pub fn account(words: &[u64], p: usize) -> Account
    requires { word_count (p + 1) ≤ length words.now }
    ensures { result ≡ account_in words.now p }
{
    let at = HEAD + PLACE * p;
    Account {
        credit: words[at + CREDIT],
        backlog: Transfers(words[at + BACKLOG]),
    }
}

// The one store of a backlog: it takes transfers.
fn put_backlog(words: &mut [u64], p: usize, q: Transfers)
    requires { word_count (p + 1) ≤ length words.old }
    ensures { words.new ≡ put_backlog words.old p q.0 }
{
    words[HEAD + PLACE * p + BACKLOG] = q.0;
}

#[tactic(auto, unfolding(crate::specs::Words::put_account))]
pub fn put_account(words: &mut [u64], p: usize, a: Account)
    requires { word_count (p + 1) ≤ length words.old }
    ensures { words.new ≡ put_account words.old p a }
{
    words[HEAD + PLACE * p + CREDIT] = a.credit;
    put_backlog(words, p, a.backlog);
}

#[tactic(auto, unfolding(crate::specs::Words::put_row))]
pub fn put_row(words: &mut [u64], p: usize, r: Requestor)
    requires { word_count (p + 1) ≤ length words.old }
    ensures { words.new ≡ put_row words.old p r }
{
    let at = HEAD + PLACE * p;
    words[at] = r.rate;
    words[at + BURST] = r.burst;
    words[at + NEED] = r.need.0;
    words[at + WITHIN] = r.within.0;
}

// Whether every word from place p on is 0. All of them are looked at, without a way out on the way: the compiler then takes several at once.
#[tactic(auto, using(crate::proofs::Stores::zero_more, crate::proofs::Stores::all_zero_lem))]
pub fn is_clear_from(words: &[u64], p: usize) -> bool
    requires { word_count p ≤ length words.now }
    ensures { result ≡ every is_zero (drop (place_start p) words.now) }
{
    let mut any = 0;
    for word in &words[HEAD + PLACE * p..] {
        any |= *word;
    }
    any == 0
}

// Every word becomes 0.
pub fn clear(words: &mut [u64])
    ensures { words.new ≡ replicate (length words.old) 0 }
{
    words.fill(0);
}
