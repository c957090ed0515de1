// A state's words, lent to be read. That their length is a state's is tested once, and stands in the type from then on. Words that are lent
// to be written have no such type, and their length is asked for: behind `&mut` the lender is not told what he gets back (tried).
ghost use Rattle.std.specs.Prelude.{◌≡◌, ◌≤◌, ℕ, true, List, is_some, IfSome};
ghost use Rattle.terms.specs.Limits.{max_places};
ghost use Rattle.layout.specs.Words.{right_length};

use crate::words::length_is_right;
use std::marker::Model;

#[derive(Drop)]
pub struct Words<'a> {
    words: &'a [u64],
}

impl<'a> Model for Words<'a> {
    ghost Value = { List ℕ };

    ghost view = { λ w. w.words.now };

    ghost invariant = { λ w. right_length max_places w.words.now ≡ true };
}

impl<'a> Words<'a> {
    // Words of any length, if it is that of a state with room for so many places at most.
    #[tactic(auto, unfolding(crate::specs::Words::right_length))]
    pub fn new(words: &'a [u64], most: usize) -> Option<Words<'a>>
        requires { most ≤ max_places }
        ensures right { is_some result ≡ right_length most words.now }
        ensures same { IfSome result (λ w. w ≡ words.now) }
    {
        if length_is_right(words, most) {
            return Some(Words { words });
        }
        None
    }

    // Words whose length is known to be a state's.
    pub fn of(words: &'a [u64]) -> Words<'a>
        requires { right_length max_places words.now ≡ true }
        ensures { result ≡ words.now }
    {
        Words { words }
    }

    // The words themselves, and what is known of them.
    pub fn slice(&self) -> &'a [u64]
        ensures same { result.now ≡ self.now }
        ensures right { right_length max_places result.now ≡ true }
    {
        let words = &self.words;
        *words
    }
}
