// A state's words whose table passed checks 1 to 6. A struct of its own beside Words and CountedWords: a type cannot be generic in the fact
// that it holds.
ghost use Rattle.std.specs.Prelude.{◌≡◌, ℕ, List};
ghost use Rattle.terms.specs.Limits.{max_places};
ghost use Rattle.admission.specs.Checked.{Checked};

use std::marker::Model;

#[derive(Drop)]
pub struct CheckedWords<'a> {
    words: &'a [u64],
}

impl<'a> Model for CheckedWords<'a> {
    ghost Value = { List ℕ };

    ghost view = { λ w. w.words.now };

    ghost invariant = { λ w. Checked max_places w.words.now };
}

impl<'a> CheckedWords<'a> {
    pub fn of(words: &'a [u64]) -> CheckedWords<'a>
        requires { Checked max_places words.now }
        ensures { result ≡ words.now }
    {
        CheckedWords { words }
    }

    // The words themselves, and what is known of them.
    pub fn slice(&self) -> &'a [u64]
        ensures same { result.now ≡ self.now }
        ensures checked { Checked max_places result.now }
    {
        let words = &self.words;
        *words
    }
}
