// A table's bytes read into words: each number is read and checked where its bytes stand, and each row goes straight into the words. The
// length is asked for, as of all words that are lent to be written (layout::lent).
ghost use Rattle.std.specs.Prelude.{◌≡◌, true};
ghost use Rattle.terms.specs.Limits.{max_places};
ghost use Rattle.terms.specs.Refusals.{faultless};
ghost use Rattle.terms.specs.Table.{count_bounds, held_to};
ghost use Rattle.table_bytes.specs.Reading.{places_read, numbers_read};
ghost use Rattle.layout.specs.Words.{room_of_words, right_length};
ghost use Rattle.admission.specs.Checked.{table_in};
ghost use Rattle.starts.specs.Laying.{laid, laid_as};

use arbiter::bounds::{count_bounds, denominator_bounds};
use layout::laying::lay_head;
use layout::words::{put_row, room_of};
use table_bytes::fields::read_field;
use table_bytes::rows::read_row;
use terms::refusals::{Cause, InputRefusal};

// The places of a table of which D and N have been read: each row is read from the bytes that the one before it left, and behind the
// last none may be left.
fn lay_places(bytes: &[u8], d: u64, n: usize, words: &mut [u64]) -> Result<(), Cause>
    requires { (right_length max_places words.old ≡ true) × (held_to (count_bounds (room_of_words words.old)) n ≡ faultless) }
    ensures { laid_as (table_in words.new) result ≡ laid (places_read (room_of_words words.old) d n bytes.now) }
{
    lay_head(words, d, n);
    let mut left = bytes;
    for p in 0..n {
        let (row, rest) = read_row(left, d, p)?;
        put_row(words, p, row);
        left = rest;
    }
    if !left.is_empty() {
        return Err(InputRefusal::BytesLeft.into());
    }
    Ok(())
}

// The words are then those of the table. What else they hold, and what they hold after a refusal, is left open: the caller opens them or
// clears them. Refused: 1 to 5, 8 and 9 as the numbers are read, 17 behind each place, then 10.
#[tactic(auto, using(layout::proofs::RoundTrip::right, table_bytes::proofs::Accepted::field_held), unfolding(table_bytes::specs::Reading::numbers_by, table_bytes::specs::Reading::next))]
pub fn lay_bytes(table: &[u8], words: &mut [u64]) -> Result<(), Cause>
    requires { right_length max_places words.old ≡ true }
    ensures { laid_as (table_in words.new) result ≡ laid (numbers_read (room_of_words words.old) table.now) }
{
    let (d, from_n) = read_field(table, denominator_bounds())?;
    let (n, places) = read_field(from_n, count_bounds(room_of(words)))?;
    lay_places(places, d as u64, n as usize, words)
}
