// The checks of a row. A state's table is held to 3, 4 and 5; one that asks to be admitted also to 17. D, the place and the row stay three:
// the row is the struct, D is the table's, and the place is asked for its number alone.
ghost use Rattle.std.specs.Prelude.{◌≡◌};
ghost use Rattle.terms.specs.Refusals.{verdict_of};
ghost use Rattle.terms.specs.Table.{fields_verdict, offered_row_verdict};

use crate::bounds::{burst_bounds, need_bounds, rate_bounds, within_bounds};
use admission::needs::check_need_fits;
use terms::place::Requestor;
use terms::refusals::Cause;

// The first fault of the requestor at place p among 3, 4 and 5.
#[tactic(auto, using(terms::proofs::Checks::held_by), unfolding(terms::specs::Table::fields_verdict, terms::specs::Refusals::then))]
pub fn check_fields(d: u64, p: usize, r: Requestor) -> Result<(), Cause>
    ensures { verdict_of result ≡ fields_verdict d p r }
{
    rate_bounds(d, p).hold(r.rate)?;
    burst_bounds(d, p).hold(r.burst)?;
    need_bounds(p).hold(r.need.0)?;
    within_bounds(p).hold(r.within.0)
}

// The first fault of the requestor at place p among 3, 4, 5 and 17.
#[tactic(auto, unfolding(terms::specs::Table::offered_row_verdict, terms::specs::Refusals::then))]
pub fn check_offered_row(d: u64, p: usize, r: Requestor) -> Result<(), Cause>
    ensures { verdict_of result ≡ offered_row_verdict d p r }
{
    check_fields(d, p, r)?;
    check_need_fits(d, p, r)
}
