// How long a log or slotlist's input may be.
ghost use Rattle.std.specs.Prelude.{◌≡◌};
ghost use Rattle.terms.specs.Refusals.{verdict_of};
ghost use Rattle.terms.specs.Input.{input_verdict};

use crate::state::Arbiter;
use terms::refusals::{Cause, InputRefusal};

// Clause 12.13.
#[tactic(auto, unfolding(terms::specs::Input::input_verdict, terms::specs::Refusals::gate))]
pub fn check_input(bytes: usize) -> Result<(), Cause>
    ensures { verdict_of result ≡ input_verdict bytes }
{
    if Arbiter::MAX_INPUT < bytes {
        return Err(InputRefusal::TooLong.into());
    }
    Ok(())
}
