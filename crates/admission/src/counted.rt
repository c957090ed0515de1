// A state's words that have room for the table's N places. A struct of its own beside Words and CheckedWords: a type cannot be generic in
// the fact that it holds.
ghost use Rattle.std.specs.Prelude.{◌≡◌, ℕ, List};
ghost use Rattle.terms.specs.Limits.{max_places};
ghost use Rattle.admission.specs.Checked.{Counted};

use std::marker::Model;

#[derive(Drop)]
pub struct CountedWords<'a> {
    words: &'a [u64],
}

impl<'a> Model for CountedWords<'a> {
    ghost Value = { List ℕ };

    ghost view = { λ w. w.words.now };

    ghost invariant = { λ w. Counted max_places w.words.now };
}

impl<'a> CountedWords<'a> {
    pub fn of(words: &'a [u64]) -> CountedWords<'a>
        requires { Counted max_places words.now }
        ensures { result ≡ words.now }
    {
        CountedWords { words }
    }

    // The words themselves, and what is known of them.
    pub fn slice(&self) -> &'a [u64]
        ensures same { result.now ≡ self.now }
        ensures counted { Counted max_places result.now }
    {
        let words = &self.words;
        *words
    }
}
