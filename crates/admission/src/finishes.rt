// Clause 12.7.
ghost use Rattle.std.specs.Prelude.{◌≡◌};
ghost use Rattle.terms.specs.Refusals.{verdict_of};
ghost use Rattle.terms.specs.Figures.{finishes_verdict};
ghost use Rattle.admission.specs.Checked.{table_in};

use crate::checked::CheckedWords;
use crate::figures::finish_is_within;
use crate::parts::FigureParts;
use layout::words::{count, denominator, requestor};
use terms::refusals::{Cause, InputRefusal};

// Check 7, from place 0 on. The sums above a place are carried along: each turn adds its own place's burst and rate for the next.
#[tactic(auto, using(layout::proofs::RoundTrip::right, crate::proofs::Rows::count_word, crate::proofs::Rows::denominator_word, crate::proofs::Rows::placed, crate::proofs::Rows::parts, crate::proofs::Walks::carried_end))]
pub fn check_finishes(words: &CheckedWords) -> Result<(), Cause>
    ensures { verdict_of result ≡ finishes_verdict (table_in words.now) }
{
    let words = words.slice();
    let d = denominator(words);
    let n = count(words);
    let mut bursts = 0;
    let mut rates = 0;
    for p in 0..n {
        let r = requestor(words, p);
        let parts = FigureParts {
            d,
            bursts,
            left: d - rates,
            n: r.rate,
            j: r.need,
        };
        if !finish_is_within(parts, r.within) {
            return Err(InputRefusal::Finish(p).into());
        }
        bursts += r.burst;
        rates += r.rate;
    }
    Ok(())
}
