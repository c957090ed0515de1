// A table is laid into words: its D, its N and its rows as they are given, for the checks to look at. The slot number and the accounts are
// opened later, or all words become 0. What is lent to be written asks for its length: `lent` says why it is no type. `lay` stands beside
// lay_table (arbiter) and lay_old (carrying): each reads its rows from another form, and one function over them would have to say which
// rows its closure gives.
ghost use Rattle.std.specs.Prelude.{◌≡◌, true, [], length};
ghost use Rattle.terms.specs.Limits.{max_places};
ghost use Rattle.terms.specs.Table.{table_of};
ghost use Rattle.terms.specs.Start.{no_state};
ghost use Rattle.layout.specs.Words.{room_of_words, right_length, state_of, with_table};
ghost use Rattle.layout.specs.Numbers.{number_count, numbers_table};

use crate::numbers::{count_of, denominator_of, requestor_of};
use crate::words::{clear, put_head, put_row, room_of};

// D and N, and all else 0.
#[tactic(auto, using(crate::proofs::RoundTrip::right, crate::proofs::Laid::head_laid))]
pub fn lay_head(words: &mut [u64], d: u64, n: usize)
    requires { right_length max_places words.old ≡ true }
    ensures { state_of words.new ≡ with_table (no_state (room_of_words words.old)) (table_of (room_of_words words.old) d n []) }
{
    clear(words);
    put_head(words, d, n);
}

// The table that the numbers are; no other word changes. N is laid as it is: check 2 comes later.
#[tactic(auto, using(crate::proofs::RoundTrip::right, crate::proofs::Laid::numbers_none, crate::proofs::Laid::numbers_more, crate::proofs::Laid::numbers_end))]
pub fn lay(numbers: &[u32], words: &mut [u64])
    requires { (right_length max_places words.old ≡ true) × (length numbers.now ≡ number_count (room_of_words words.old)) }
    ensures { state_of words.new ≡ with_table (state_of words.old) (numbers_table (room_of_words words.old) numbers.now) }
{
    let room = room_of(words);
    let d = denominator_of(numbers);
    let n = count_of(numbers);
    put_head(words, d, n);
    for p in 0..room {
        put_row(words, p, requestor_of(numbers, p));
    }
}
