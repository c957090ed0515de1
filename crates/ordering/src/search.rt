// The search of clause 8.1 on words, in place. The first k rows are the list, and behind them stand those that have their place already. N
// places take at most N * (N + 1) / 2 tests of a need, and no function here calls itself. The length is asked for, as of all words that are
// lent to be written (layout::lent).
ghost use Rattle.std.specs.Prelude.{◌≡◌, true, ◌≤◌, ◌<◌, take};
ghost use Rattle.lists.specs.Orders.{without};
ghost use Rattle.terms.specs.Limits.{max_places};
ghost use Rattle.terms.specs.Answers.{answer_of};
ghost use Rattle.layout.specs.Words.{room_of_words, right_length, state_of, row_in};
ghost use Rattle.admission.specs.Checked.{table_in, rows_in, OfferChecked};
ghost use Rattle.ordering.specs.Order.{need_holds, last_holding, order_of, found};
ghost use Rattle.ordering.specs.InPlace.{in_state, Remaining, lowered};

use admission::figures::finish_is_within;
use admission::parts::FigureParts;
use admission::sums::{Sums, sums_above};
use layout::words::{burst, count, denominator, put_row, rate, requestor};
use opening::turn_down;
use terms::refusals::{Cause, InputRefusal};

// Whether row i can do with the k - 1 others above it. The sums are those of all k, its own among them.
fn need_holds(words: &[u64], k: usize, i: usize, all: Sums) -> bool
    requires { Remaining max_places words.now k all.bursts all.rates × (i < k) }
    ensures { result ≡ need_holds (table_in words.now).denominator (without i (take k (rows_in words.now))) (row_in words.now i) }
{
    let d = denominator(words);
    let r = requestor(words, i);
    let parts = FigureParts {
        d,
        bursts: all.bursts - r.burst,
        left: d - (all.rates - r.rate),
        n: r.rate,
        j: r.need,
    };
    finish_is_within(parts, r.within)
}

// The last of the list that can.
#[tactic(auto, using(crate::proofs::InPlace::holding_pass, crate::proofs::InPlace::holding_stop), unfolding(crate::specs::Order::last_holding))]
fn last_holding(words: &[u64], k: usize, all: Sums) -> Option<usize>
    requires { Remaining max_places words.now k all.bursts all.rates }
    ensures { result ≡ last_holding (table_in words.now).denominator (take k (rows_in words.now)) k }
{
    for i in (0..k).rev() {
        if need_holds(words, k, i, all) {
            return Some(i);
        }
    }
    None
}

// Row i becomes row p, which has a lower priority, and each row between them moves up by one.
#[tactic(auto, using(layout::proofs::RoundTrip::right, crate::proofs::InPlace::lowering_none, crate::proofs::InPlace::lowering_end))]
fn lower(words: &mut [u64], i: usize, p: usize)
    requires { (right_length max_places words.old ≡ true) × (i ≤ p) × (p < room_of_words words.old) }
    ensures { state_of words.new ≡ lowered i p (state_of words.old) }
{
    let r = requestor(words, i);
    for q in i..p {
        let next = requestor(words, q + 1);
        put_row(words, q, next);
    }
    put_row(words, p, r);
}

// Of a table that passed checks 1 to 6 and 17: its rows in the order that is found. Refused: 15.
pub(crate) fn search(words: &mut [u64]) -> Result<(), Cause>
    requires { OfferChecked max_places words.old }
    ensures { record { state = state_of words.new; answer = answer_of result } ≡ in_state (room_of_words words.old) (state_of words.old) (found (room_of_words words.old) (table_in words.old) (order_of (table_in words.old))) }
{
    let n = count(words);
    let mut all = sums_above(words, n);
    for p in (0..n).rev() {
        match last_holding(words, p + 1, all) {
            Some(i) => {
                all.bursts -= burst(words, i);
                all.rates -= rate(words, i);
                lower(words, i, p);
            }
            None => return turn_down(words, InputRefusal::NoOrder.into()),
        }
    }
    Ok(())
}
