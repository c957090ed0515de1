// The lines of the listing, each with its line feed, in a buffer that has room for it. The room is asked for: it is lent to be written
// (layout::lent), and there is no heap.
ghost use Rattle.std.specs.Prelude.{◌≡◌, [], ◌∷◌, ◌≤◌, length};
ghost use Rattle.lists.specs.Sums.{joined};
ghost use Rattle.lists.specs.Overwriting.{written_over};
ghost use Rattle.layout.specs.Words.{state_of};
ghost use Rattle.terms.specs.Refusals.{refusal_of};
ghost use Rattle.lines.specs.Text.{decimal, spaced, line};
ghost use Rattle.lines.specs.Lines.{header, end_line, refused_line, place_item, credit_items, slot_line};

use crate::text::{put, put_item, put_number};
use admission::counted::CountedWords;
use layout::words::{account, count};
use terms::answers::Slot;
use terms::refusals::Cause;
use terms::units::Slots;

#[tactic(auto, unfolding(crate::specs::Lines::header, crate::specs::Text::line, crate::specs::Text::spaced, lists::specs::Sums::joined))]
pub fn put_header(out: &mut [u8]) -> usize
    requires { length header ≤ length out.old }
    ensures wrote { result ≡ length header }
    ensures text { out.new ≡ written_over header out.old }
{
    put(b"slot place credits\n", out)
}

// A line of a word and a number.
#[tactic(auto, using(lists::proofs::Overwriting::length_over, crate::proofs::Writing::two_length), unfolding(crate::specs::Text::spaced, lists::specs::Overwriting::written_over))]
fn put_line(word: &[u8], n: u64, out: &mut [u8]) -> usize
    requires { length (line word.now (decimal n ∷ [])) ≤ length out.old }
    ensures wrote { result ≡ length (line word.now (decimal n ∷ [])) }
    ensures text { out.new ≡ written_over (line word.now (decimal n ∷ [])) out.old }
{
    let mut at = put(word, out);
    at += put_item(n, &mut out[at..]);
    out[at] = b'\n';
    at + 1
}

#[tactic(auto, unfolding(crate::specs::Lines::refused_line))]
pub fn put_refused(why: Cause, out: &mut [u8]) -> usize
    requires { length (refused_line (refusal_of why)) ≤ length out.old }
    ensures wrote { result ≡ length (refused_line (refusal_of why)) }
    ensures text { out.new ≡ written_over (refused_line (refusal_of why)) out.old }
{
    put_line(b"refused", why.refusal().number as u64, out)
}

#[tactic(auto, unfolding(crate::specs::Lines::end_line))]
pub fn put_end(slots: Slots, out: &mut [u8]) -> usize
    requires { length (end_line slots.0) ≤ length out.old }
    ensures wrote { result ≡ length (end_line slots.0) }
    ensures text { out.new ≡ written_over (end_line slots.0) out.old }
{
    put_line(b"end", slots.0, out)
}

// The credits from place 0 on.
fn put_credits(words: &CountedWords, out: &mut [u8]) -> usize
    requires { length (joined spaced (credit_items (state_of words.now))) ≤ length out.old }
    ensures wrote { result ≡ length (joined spaced (credit_items (state_of words.now))) }
    ensures text { out.new ≡ written_over (joined spaced (credit_items (state_of words.now))) out.old }
{
    let words = words.slice();
    let mut at = 0;
    for p in 0..count(words) {
        at += put_item(account(words, p).credit, &mut out[at..]);
    }
    at
}

// The place granted, or -.
#[tactic(auto, unfolding(crate::specs::Text::spaced))]
fn put_place(granted: Option<usize>, out: &mut [u8]) -> usize
    requires { length (spaced (place_item granted)) ≤ length out.old }
    ensures wrote { result ≡ length (spaced (place_item granted)) }
    ensures text { out.new ≡ written_over (spaced (place_item granted)) out.old }
{
    match granted {
        None => put(b" -", out),
        Some(p) => put_item(p as u64, out),
    }
}

// The line of a slot: its stamp, the place granted, and the credits after it.
#[tactic(auto, using(lists::proofs::Overwriting::length_over, crate::proofs::Writing::slot_length), unfolding(crate::specs::Text::spaced, lists::specs::Overwriting::written_over))]
pub fn put_slot(slot: Slot, after: &CountedWords, out: &mut [u8]) -> usize
    requires { length (slot_line slot.stamp.0 slot.granted (state_of after.now)) ≤ length out.old }
    ensures wrote { result ≡ length (slot_line slot.stamp.0 slot.granted (state_of after.now)) }
    ensures text { out.new ≡ written_over (slot_line slot.stamp.0 slot.granted (state_of after.now)) out.old }
{
    let mut at = put_number(slot.stamp.0, out);
    at += put_place(slot.granted, &mut out[at..]);
    at += put_credits(after, &mut out[at..]);
    out[at] = b'\n';
    at + 1
}
