// Admission of a table given as numbers (clause 2.5): its checks 1 to 7 and 17 (clause 13.1).
ghost use Rattle.std.specs.Prelude.{◌≡◌};
ghost use Rattle.terms.specs.Limits.{max_places};
ghost use Rattle.terms.specs.Refusals.{verdict_of};
ghost use Rattle.terms.specs.Figures.{admission_verdict};
ghost use Rattle.arbiter.specs.ByValue.{given};

use arbiter::admit::admit;
use arbiter::table::{Table, lay_table};
use terms::refusals::Cause;

#[tactic(auto, using(arbiter::proofs::ByValue::right_full, arbiter::proofs::ByValue::room_full), unfolding(terms::specs::Refusals::gate))]
pub fn admit_table(t: Table) -> Result<(), Cause>
    ensures { verdict_of result ≡ admission_verdict max_places (given t) }
{
    admit(&lay_table(t))
}
