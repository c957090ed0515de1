// What every call does with lent memory: the test of lengths ahead of it (clause 15.3), and an answer of two words.
ghost use Rattle.std.specs.Prelude.{◌≡◌, ◌&&◌, [], ◌∷◌, length, is_some, IfSome};
ghost use Rattle.terms.specs.Limits.{max_places};
ghost use Rattle.layout.specs.Words.{right_length};

use arbiter::state::Arbiter;
use layout::lent::Words;
use layout::words::length_is_right;

// Whether lent words, and what is lent beside them, have their lengths: for words that are lent to be written, which no type holds.
pub(crate) fn lengths_hold(words: &[u64], beside: bool) -> bool
    ensures { result ≡ (right_length max_places words.now && beside) }
{
    length_is_right(words, Arbiter::MAX_PLACES) && beside
}

// Words that are lent to be read, if they and what is lent beside them have their lengths.
pub(crate) fn lent(words: &[u64], beside: bool) -> Option<Words<'_>>
    ensures right { is_some result ≡ (right_length max_places words.now && beside) }
    ensures same { IfSome result (λ w. w ≡ words.now) }
{
    if !beside {
        return None;
    }
    Words::new(words, Arbiter::MAX_PLACES)
}

// An answer of two words, as C reads it.
pub(crate) fn put_two(x: u64, y: u64, answer: &mut [u64])
    requires { length answer.old ≡ 2 }
    ensures { answer.new ≡ x ∷ y ∷ [] }
{
    answer[0] = x;
    answer[1] = y;
}
