// A start from a table given as numbers. The length is asked for, as of all words that are lent to be written (layout::lent).
ghost use Rattle.std.specs.Prelude.{◌≡◌, true, length};
ghost use Rattle.terms.specs.Limits.{max_places};
ghost use Rattle.terms.specs.Start.{start};
ghost use Rattle.terms.specs.Answers.{answer_of};
ghost use Rattle.layout.specs.Words.{room_of_words, right_length, state_of};
ghost use Rattle.layout.specs.Numbers.{number_count, numbers_table};

use arbiter::start::start_laid;
use layout::laying::lay;
use terms::refusals::Cause;
use terms::units::Slots;

// Refused: 1 to 7, 17, 12.
pub fn start_numbers(numbers: &[u32], first: Slots, words: &mut [u64]) -> Result<(), Cause>
    requires { (right_length max_places words.old ≡ true) × (length numbers.now ≡ number_count (room_of_words words.old)) }
    ensures { record { state = state_of words.new; answer = answer_of result } ≡ start (room_of_words words.old) (numbers_table (room_of_words words.old) numbers.now) first.0 }
{
    lay(numbers, words);
    start_laid(words, first)
}
