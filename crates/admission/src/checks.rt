// The checks of a table that need no limit: the rest of check 2, and check 6.
ghost use Rattle.std.specs.Prelude.{◌≡◌, ◌<◌, ◌^◌};
ghost use Rattle.lists.specs.Sums.{total};
ghost use Rattle.terms.specs.Refusals.{verdict_of};
ghost use Rattle.terms.specs.Table.{rate, requestors_of, tail_verdict, rate_sum_verdict};
ghost use Rattle.admission.specs.Checked.{table_in};

use crate::counted::CountedWords;
use crate::sums::rates_above;
use layout::lent::Words;
use layout::words::{count, denominator, requestor, room_of};
use terms::refusals::{Cause, InputRefusal};

// The part of clause 12.2 that looks past place N-1.
#[tactic(auto, using(layout::proofs::RoundTrip::right, crate::proofs::Rows::count_word, crate::proofs::Rows::within_room, crate::proofs::Walks::tail_pass, crate::proofs::Walks::tail_stop, crate::proofs::Walks::tail_end))]
pub fn check_tail(words: &Words) -> Result<(), Cause>
    ensures { verdict_of result ≡ tail_verdict (table_in words.now) }
{
    let words = words.slice();
    for p in count(words)..room_of(words) {
        if !requestor(words, p).is_none() {
            return Err(InputRefusal::Count.into());
        }
    }
    Ok(())
}

// Clause 12.6.
#[tactic(auto, using(layout::proofs::RoundTrip::right, crate::proofs::Rows::count_word, crate::proofs::Rows::denominator_word, crate::proofs::Rows::within_room), unfolding(terms::specs::Table::rate_sum_verdict, terms::specs::Refusals::gate))]
pub fn check_rate_sum(words: &CountedWords) -> Result<(), Cause>
    requires { total rate (requestors_of (table_in words.now)) < 2 ^ 64 }
    ensures { verdict_of result ≡ rate_sum_verdict (table_in words.now) }
{
    let words = words.slice();
    if rates_above(words, count(words)) <= denominator(words) {
        return Ok(());
    }
    Err(InputRefusal::RateSum.into())
}
