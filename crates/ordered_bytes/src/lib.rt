// From a table's bytes to the bytes of the table in order (clause 8.3). The length is asked for, as of all words that are lent to be
// written (layout::lent).
#![tactic(auto)]

ghost use Rattle.std.specs.Prelude.{◌≡◌, true};
ghost use Rattle.terms.specs.Limits.{max_places};
ghost use Rattle.terms.specs.Answers.{answer_of};
ghost use Rattle.table_bytes.specs.Reading.{numbers_read};
ghost use Rattle.table_bytes.specs.Writing.{write_answer_of};
ghost use Rattle.layout.specs.Words.{room_of_words, right_length};
ghost use Rattle.admission.specs.Checked.{table_in};
ghost use Rattle.ordered_bytes.specs.OrderBytes.{order_read, order_bytes};

use arbiter::state::Arbiter;
use layout::lent::Words;
use opening::turn_down;
use ordering::order::order_laid;
use queries::write::write_admitted;
use starts::laying::lay_bytes;
use terms::refusals::Cause;

// The table of the bytes, in order, into words; if it is refused, they are all 0. Of the ordering's own checks, 1 to 5 and 17 pass again.
// Refused: clause 13.6 up to 15.
#[tactic(auto, using(layout::proofs::Stores::same_room, layout::proofs::Stores::right_stands, ordering::proofs::Claims::in_state_lem, crate::proofs::Ordered::ordered_none, crate::proofs::Ordered::ordered_all), unfolding(terms::specs::Start::no_state))]
fn order_read(table: &[u8], words: &mut [u64]) -> Result<(), Cause>
    requires { right_length max_places words.old ≡ true }
    ensures { record { table = table_in words.new; answer = answer_of result } ≡ order_read (room_of_words words.old) (numbers_read (room_of_words words.old) table.now) }
{
    match lay_bytes(table, words) {
        Ok(()) => order_laid(words),
        Err(why) => turn_down(words, why),
    }
}

// The bytes of the table in order from the buffer's start on; the bytes beyond are left as they were, and so are all of them if it is
// refused. A table that was put in order passes admission, which is not worked out again. Refused: 8, 9 and 1 to 5 number by number, 17
// behind each place; 10, 6, 15, 14 (clause 13.6).
#[tactic(auto, using(arbiter::proofs::ByValue::right_full, arbiter::proofs::ByValue::room_full, crate::proofs::Ordered::answer_admitted, crate::proofs::Ordered::as_the_writer), unfolding(crate::specs::OrderBytes::order_bytes))]
pub fn order_bytes(table: &[u8], buffer: &mut [u8]) -> Result<usize, Cause>
    ensures { record { answer = write_answer_of result; buffer = buffer.new } ≡ order_bytes max_places table.now buffer.old }
{
    let mut words = [0u64; Arbiter::WORDS];
    order_read(table, &mut words)?;
    write_admitted(&Words::of(&words), buffer)
}
