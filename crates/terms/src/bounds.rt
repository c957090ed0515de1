// What a number is held to, with the refusal of a number outside.
ghost use Rattle.std.specs.Prelude.{◌≡◌};
ghost use Rattle.lists.specs.Choices.{in_range};
ghost use Rattle.terms.specs.Refusals.{verdict_of};
ghost use Rattle.terms.specs.Table.{bounds_of, held_to};

use crate::refusals::{Cause, InputRefusal};

#[derive(Clone, Copy)]
pub struct Bounds {
    pub low: u64,
    pub high: u64,
    pub outside: InputRefusal,
}

impl Bounds {
    // Whether a number is within these bounds.
    pub fn admits(self, x: u64) -> bool
        ensures { result ≡ in_range (bounds_of self).low (bounds_of self).high x }
    {
        if x < self.low {
            return false;
        }
        x <= self.high
    }

    // A number held to these bounds.
    #[tactic(auto, unfolding(crate::specs::Table::held_to, crate::specs::Refusals::gate))]
    pub fn hold(self, x: u64) -> Result<(), Cause>
        ensures { verdict_of result ≡ held_to (bounds_of self) x }
    {
        if self.admits(x) {
            return Ok(());
        }
        Err(self.outside.into())
    }
}
