// Who follows whom, as it comes with a call: a name for each place, which is a byte, and the checks of the names over the whole table.
// Names go beside words, in no struct with them: they come with a call, and no state holds them.
ghost use Rattle.std.specs.Prelude.{◌≡◌, not, eqb};
ghost use Rattle.lists.specs.Sums.{every};
ghost use Rattle.terms.specs.Refusals.{verdict_of};
ghost use Rattle.terms.specs.Chain.{follows, present, chain_to, names_verdict, circles_verdict, following_verdict};
ghost use Rattle.admission.specs.Checked.{table_in};

use admission::checked::CheckedWords;
use layout::words::count;
use terms::refusals::{Cause, InputRefusal};

// The name that says: it follows nobody. In a log this byte says that nobody was granted. No place has this number. The byte is the caller's (clause 9.1).
const NOBODY: u8 = 255;

// Whom place p follows, by the name that is given for it. A place that no name is given for follows nobody.
#[tactic(auto, unfolding(terms::specs::Chain::follows, terms::specs::Chain::named))]
pub(crate) fn follows(names: &[u8], p: usize) -> Option<usize>
    ensures { result ≡ follows names.now p }
{
    if names.len() <= p || names[p] == NOBODY {
        return None;
    }
    Some(names[p] as usize)
}

// Whether it is nobody, or one of the first n places.
fn is_present(n: usize, followed: Option<usize>) -> bool
    ensures { result ≡ present n followed }
{
    match followed {
        None => true,
        Some(q) => q < n,
    }
}

// Clause 12.11 of the names: each place that is followed is one of the table's.
#[tactic(auto, using(admission::proofs::Rows::head_there, admission::proofs::Rows::count_word, crate::proofs::Tables::names_pass, crate::proofs::Tables::names_stop, crate::proofs::Tables::names_end))]
fn check_names(words: &CheckedWords, names: &[u8]) -> Result<(), Cause>
    ensures { verdict_of result ≡ names_verdict (table_in words.now) names.now }
{
    let n = count(words.slice());
    for p in 0..n {
        if !is_present(n, follows(names, p)) {
            return Err(InputRefusal::NoSuchPlace.into());
        }
    }
    Ok(())
}

// Whether following from place p stays clear of p itself, for n steps. Among n places a walk that has not ended by then goes round a circle;
// p stands on that circle only if it was met.
#[tactic(auto, using(crate::proofs::Walks::clear_none, crate::proofs::Walks::clear_ends, crate::proofs::Walks::clear_meets, crate::proofs::Walks::clear_more))]
fn stays_clear(names: &[u8], n: usize, p: usize) -> bool
    ensures { result ≡ every (λ q. not (eqb q p)) (chain_to names.now n (follows names.now p)) }
{
    let mut at = p;
    for _step in 0..n {
        match follows(names, at) {
            None => return true,
            Some(q) => {
                if q == p {
                    return false;
                }
                at = q;
            }
        }
    }
    true
}

// Clause 12.16: the lowest place from which following leads back to it.
#[tactic(auto, using(admission::proofs::Rows::head_there, admission::proofs::Rows::count_word, crate::proofs::Tables::circles_pass, crate::proofs::Tables::circles_stop, crate::proofs::Tables::circles_end))]
fn check_circles(words: &CheckedWords, names: &[u8]) -> Result<(), Cause>
    ensures { verdict_of result ≡ circles_verdict (table_in words.now) names.now }
{
    let n = count(words.slice());
    for p in 0..n {
        if !stays_clear(names, n, p) {
            return Err(InputRefusal::Circle(p).into());
        }
    }
    Ok(())
}

// 11, then 16. Nobody is followed before every place that is named is known to be there, so that no name past the table's places is read.
#[tactic(auto, unfolding(terms::specs::Chain::following_verdict, terms::specs::Refusals::then))]
pub(crate) fn check_following(words: &CheckedWords, names: &[u8]) -> Result<(), Cause>
    ensures { verdict_of result ≡ following_verdict (table_in words.now) names.now }
{
    check_names(words, names)?;
    check_circles(words, names)
}
