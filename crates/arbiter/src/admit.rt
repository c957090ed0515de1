// Admission: checks 1 to 6 with 17 among them, and then 7, of the table that words are.
ghost use Rattle.std.specs.Prelude.{◌≡◌, IfOk};
ghost use Rattle.terms.specs.Limits.{max_places};
ghost use Rattle.terms.specs.Refusals.{verdict_of, faultless, refusal, gate};
ghost use Rattle.terms.specs.Table.{offered_verdict};
ghost use Rattle.terms.specs.Figures.{admission_verdict};
ghost use Rattle.layout.specs.Words.{room_of_words, right_length};
ghost use Rattle.admission.specs.Checked.{table_in};

use crate::checks::check_offered;
use crate::state::Arbiter;
use admission::checked::CheckedWords;
use admission::finishes::check_finishes;
use layout::lent::Words;
use terms::refusals::{Cause, StateRefusal};

// Words of another length than a state's are no state's, which is 23.
#[tactic(auto, unfolding(terms::specs::Refusals::gate))]
pub fn check_length(words: &[u64]) -> Result<Words<'_>, Cause>
    ensures found { verdict_of result ≡ gate (refusal 23) (right_length max_places words.now) faultless }
    ensures same { IfOk result (λ w. w ≡ words.now) }
{
    Words::new(words, Arbiter::MAX_PLACES).ok_or(StateRefusal::Unsound.into())
}

// Admission but for 7, of any words; 23 of those of another length.
#[tactic(auto, using(crate::proofs::Verdicts::gate_then, crate::proofs::Verdicts::gate_passes), unfolding(terms::specs::Refusals::then))]
pub fn check_laid(words: &[u64]) -> Result<(), Cause>
    ensures { verdict_of result ≡ gate (refusal 23) (right_length max_places words.now) (offered_verdict (room_of_words words.now) (table_in words.now)) }
{
    let words = check_length(words)?;
    check_offered(&words)
}

// The whole of admission, of any words; 23 of those of another length.
#[tactic(auto, using(crate::proofs::Verdicts::gate_both, crate::proofs::Verdicts::laid_checked), unfolding(terms::specs::Refusals::then, terms::specs::Figures::admission_verdict))]
pub fn admit(words: &[u64]) -> Result<(), Cause>
    ensures { verdict_of result ≡ gate (refusal 23) (right_length max_places words.now) (admission_verdict (room_of_words words.now) (table_in words.now)) }
{
    check_laid(words)?;
    check_finishes(&CheckedWords::of(words))
}
