// Checks 1 to 6, with 17 among them, of the table that words are. N is held to the room that the words have.
ghost use Rattle.std.specs.Prelude.{◌≡◌, IfOk};
ghost use Rattle.terms.specs.Limits.{max_places};
ghost use Rattle.terms.specs.Refusals.{verdict_of};
ghost use Rattle.terms.specs.Table.{offered_verdict};
ghost use Rattle.layout.specs.Words.{room_of_words};
ghost use Rattle.admission.specs.Checked.{table_in, limits_verdict, offered_rows_verdict, Counted};

use crate::bounds::{count_bounds, denominator_bounds};
use crate::rows::check_offered_row;
use admission::checks::{check_rate_sum, check_tail};
use admission::counted::CountedWords;
use layout::lent::Words;
use layout::words::{count, denominator, requestor, room_of};
use terms::refusals::Cause;

// Check 1, and check 2 of N itself.
#[tactic(auto, using(admission::proofs::Rows::head_there, terms::proofs::Checks::held_by, admission::proofs::Rows::denominator_word, admission::proofs::Rows::count_word, crate::proofs::Verdicts::limits_counted), unfolding(terms::specs::Refusals::then))]
fn check_limits<'a>(words: &Words<'a>) -> Result<CountedWords<'a>, Cause>
    ensures found { verdict_of result ≡ limits_verdict (room_of_words words.now) (table_in words.now) }
    ensures same { IfOk result (λ w. w ≡ words.now) }
    ensures counted { IfOk result (λ w. Counted max_places w) }
{
    let words = words.slice();
    denominator_bounds().hold(denominator(words))?;
    count_bounds(room_of(words)).hold(count(words) as u64)?;
    Ok(CountedWords::of(words))
}

// Checks 3, 4, 5 and 17, place by place.
#[tactic(auto, using(admission::proofs::Rows::head_there, admission::proofs::Rows::count_word, admission::proofs::Rows::denominator_word, admission::proofs::Rows::within_room, admission::proofs::Walks::walk_pass, admission::proofs::Walks::walk_break, admission::proofs::Walks::walk_end))]
fn check_rows(words: &CountedWords) -> Result<(), Cause>
    ensures { verdict_of result ≡ offered_rows_verdict (table_in words.now) }
{
    let words = words.slice();
    let d = denominator(words);
    let n = count(words);
    for p in 0..n {
        check_offered_row(d, p, requestor(words, p))?;
    }
    Ok(())
}

// All of them. Rates are added up once each of them is known to be at most D.
#[tactic(auto, using(crate::proofs::Verdicts::offered_parts, crate::proofs::Verdicts::limits_counted, crate::proofs::Verdicts::rates_small), unfolding(terms::specs::Refusals::then))]
pub(crate) fn check_offered(words: &Words) -> Result<(), Cause>
    ensures { verdict_of result ≡ offered_verdict (room_of_words words.now) (table_in words.now) }
{
    let counted = check_limits(words)?;
    check_tail(words)?;
    check_rows(&counted)?;
    check_rate_sum(&counted)
}
