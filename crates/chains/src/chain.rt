// The chain figure, with its checks.
ghost use Rattle.std.specs.Prelude.{◌≡◌, ◌<◌};
ghost use Rattle.terms.specs.Refusals.{faultless};
ghost use Rattle.terms.specs.Chain.{chain_of, chain_figure, names_verdict, chain, chain_answer_of};
ghost use Rattle.layout.specs.Words.{room_of_words, state_of};
ghost use Rattle.admission.specs.Checked.{table_in};

use crate::following::{check_following, follows};
use admission::checked::CheckedWords;
use admission::figures::finish;
use layout::lent::Words;
use layout::words::count;
use soundness::place::check_place;
use terms::refusals::Cause;
use terms::units::{Slots, Transfers};

// The finish figures for one transfer, summed from place p on back to the first link. No chain has more links than the table has places, and
// so many of the largest finish figures fit.
fn chain_figure(words: &CheckedWords, p: usize, names: &[u8]) -> Slots
    requires { (p < (table_in words.now).count) × (names_verdict (table_in words.now) names.now ≡ faultless) }
    ensures { result.0 ≡ chain_figure (table_in words.now) (chain_of (table_in words.now) names.now p) }
{
    let mut sum: u64 = 0;
    let mut at = p;
    for _link in 0..count(words.slice()) {
        sum += finish(words, at, Transfers(1)).0;
        match follows(names, at) {
            None => return Slots(sum),
            Some(q) => at = q,
        }
    }
    Slots(sum)
}

// Refused: 23, 11, 16.
#[tactic(auto, using(crate::proofs::Tables::place_below, crate::proofs::Tables::names_passed), unfolding(terms::specs::Chain::chain, terms::specs::Chain::chain_verdict, terms::specs::Refusals::then))]
pub fn chain_words(words: &Words, place: usize, names: &[u8]) -> Result<Slots, Cause>
    ensures { chain_answer_of result ≡ chain (room_of_words words.now) (state_of words.now) place names.now }
{
    let checked = check_place(words, place)?;
    check_following(&checked, names)?;
    Ok(chain_figure(&checked, place, names))
}
