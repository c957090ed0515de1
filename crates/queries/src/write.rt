// The bytes of the table that words are, in a lent buffer.
ghost use Rattle.std.specs.Prelude.{◌≡◌};
ghost use Rattle.lists.specs.Overwriting.{written_over};
ghost use Rattle.terms.specs.Refusals.{faultless};
ghost use Rattle.terms.specs.Figures.{admission_verdict};
ghost use Rattle.table_bytes.specs.Writing.{table_numbers, write_table, write_answer_of};
ghost use Rattle.layout.specs.Words.{room_of_words, state_of};
ghost use Rattle.admission.specs.Checked.{table_in};

use admission::checked::CheckedWords;
use arbiter::admit::admit;
use layout::lent::Words;
use layout::words::{count, denominator, requestor};
use number_bytes::{MAX_NUMBERS, bytes_len, put_numbers};
use terms::refusals::{Cause, InputRefusal};

// The numbers of the table, in the order of its bytes, into a lent array, which has room for those of the largest table; numbers past its
// last place stay as they were. Each fits 32 bits, since the table passed its checks. The array is lent and not handed back: a value of
// that size would be copied on the stack.
fn numbers_of_words(words: &CheckedWords, numbers: &mut [u32; MAX_NUMBERS])
    ensures { numbers.new ≡ written_over (table_numbers (table_in words.now)) numbers.old }
{
    let words = words.slice();
    let n = count(words);
    numbers[0] = denominator(words) as u32;
    numbers[1] = n as u32;
    for p in 0..n {
        let r = requestor(words, p);
        let at = 2 + 4 * p;
        numbers[at] = r.rate as u32;
        numbers[at + 1] = r.burst as u32;
        numbers[at + 2] = r.need.0 as u32;
        numbers[at + 3] = r.within.0 as u32;
    }
}

// The bytes of a table that passed admission, from the buffer's start on; the bytes beyond are left as they were, and so are all of them
// if it is refused. Refused: 14.
pub fn write_admitted(words: &Words, buffer: &mut [u8]) -> Result<usize, Cause>
    requires { admission_verdict (room_of_words words.now) (table_in words.now) ≡ faultless }
    ensures { record { answer = write_answer_of result; buffer = buffer.new } ≡ write_table (room_of_words words.now) (state_of words.now).table buffer.old }
{
    let words = words.slice();
    let mut room = [0u32; MAX_NUMBERS];
    numbers_of_words(&CheckedWords::of(words), &mut room);
    let numbers = &room[..2 + 4 * count(words)];
    let size = bytes_len(numbers);
    if buffer.len() < size {
        return Err(InputRefusal::BufferShort.into());
    }
    put_numbers(numbers, buffer);
    Ok(size)
}

// The same, with admission asked first. Of a state that passed test 23 it can only find 17 and 7. Refused: 1 to 7, 17, 14.
#[tactic(auto, using(table_bytes::proofs::Writings::write_refused), unfolding(terms::specs::Refusals::gate))]
pub fn admit_and_write(words: &Words, buffer: &mut [u8]) -> Result<usize, Cause>
    ensures { record { answer = write_answer_of result; buffer = buffer.new } ≡ write_table (room_of_words words.now) (state_of words.now).table buffer.old }
{
    admit(words.slice())?;
    write_admitted(words, buffer)
}
