// The wait and the finish figure of a place, in slots. That a place is one of the table's is asked at each, as an index is.
ghost use Rattle.std.specs.Prelude.{◌≡◌, ℕ, ◌+◌, ◌≤◌, ◌<◌, ◌^◌, leb};
ghost use Rattle.terms.specs.Limits.{max_places, max_need, max_within};
ghost use Rattle.terms.specs.Table.{requestors_of};
ghost use Rattle.terms.specs.Figures.{rounded_up, wait, finish_of, finish, most_finish};
ghost use Rattle.admission.specs.Checked.{table_in};

use crate::checked::CheckedWords;
use crate::parts::FigureParts;
use crate::sums::{bursts_above, rates_above};
use layout::words::{denominator, rate};
use terms::units::{Slots, Transfers};

// a / b, rounded up.
#[tactic(auto, unfolding(terms::specs::Figures::rounded_up))]
fn rounded_up(a: u64, b: u64) -> u64
    requires { (1 ≤ b) × (a + b < 2 ^ 64) }
    ensures figure { result ≡ rounded_up a b }
    ensures small { result ≤ a + b }
{
    (a + (b - 1)) / b
}

// The reported wait of place p (clause 7.2).
pub fn wait(words: &CheckedWords, p: usize) -> Slots
    requires { p < (table_in words.now).count }
    ensures figure { result.0 ≡ wait (table_in words.now).denominator (requestors_of (table_in words.now)) p }
    ensures small { result.0 < 2 ^ 62 }
{
    let words = words.slice();
    let left = denominator(words) - rates_above(words, p);
    Slots(rounded_up(bursts_above(words, p), left))
}

// The finish figure of its parts, as one quotient (clause 7.3).
#[tactic(auto, using(crate::proofs::Products::products, terms::proofs::Figures::finish_most))]
fn finish_of(parts: FigureParts) -> Slots
    ensures figure { result.0 ≡ finish_of parts.d parts.bursts parts.left parts.n parts.j.0 }
    ensures small { result.0 ≤ most_finish max_places }
{
    Slots(rounded_up(
        parts.bursts * parts.n + parts.j.0 * parts.d * parts.left,
        parts.left * parts.n,
    ))
}

// Whether the finish figure of these parts is at most L. So it is exactly if L slots, taken R * n times, are not below the sum, and
// nothing is divided.
#[tactic(auto, using(crate::proofs::Products::products))]
pub fn finish_is_within(parts: FigureParts, within: Slots) -> bool
    requires { within.0 ≤ max_within }
    ensures { result ≡ leb (finish_of parts.d parts.bursts parts.left parts.n parts.j.0) within.0 }
{
    parts.bursts * parts.n + parts.j.0 * parts.d * parts.left <= parts.left * parts.n * within.0
}

// The finish figure of place p for j transfers.
#[tactic(auto, using(crate::proofs::Rows::placed, crate::proofs::Rows::denominator_word, crate::proofs::Rows::parts))]
pub fn finish(words: &CheckedWords, p: usize, j: Transfers) -> Slots
    requires { (p < (table_in words.now).count) × (j.0 ≤ max_need) }
    ensures figure { result.0 ≡ finish (table_in words.now).denominator (requestors_of (table_in words.now)) p j.0 }
    ensures small { result.0 ≤ most_finish max_places }
{
    let words = words.slice();
    let d = denominator(words);
    finish_of(FigureParts {
        d,
        bursts: bursts_above(words, p),
        left: d - rates_above(words, p),
        n: rate(words, p),
        j,
    })
}
