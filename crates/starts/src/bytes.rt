// A start from a table's bytes, read into the words. The length is asked for, as of all words that are lent to be written (layout::lent).
ghost use Rattle.std.specs.Prelude.{◌≡◌, true};
ghost use Rattle.terms.specs.Limits.{max_places};
ghost use Rattle.terms.specs.Answers.{answer_of};
ghost use Rattle.table_bytes.specs.Reading.{read_table};
ghost use Rattle.layout.specs.Words.{room_of_words, right_length, state_of};
ghost use Rattle.starts.specs.Starts.{begun};

use crate::laying::lay_bytes;
use arbiter::start::start_laid;
use opening::turn_down;
use terms::refusals::Cause;
use terms::units::Slots;

// Of the start's own checks, 1 to 5 and 17 pass again. Refused: 1 to 5, 8 and 9 as the numbers are read, 17 behind each place, then 10, 6,
// 7, 12.
pub fn start_bytes(table: &[u8], first: Slots, words: &mut [u64]) -> Result<(), Cause>
    requires { right_length max_places words.old ≡ true }
    ensures { record { state = state_of words.new; answer = answer_of result } ≡ begun (room_of_words words.old) (read_table (room_of_words words.old) table.now) first.0 }
{
    if let Err(why) = lay_bytes(table, words) {
        return turn_down(words, why);
    }
    start_laid(words, first)
}
