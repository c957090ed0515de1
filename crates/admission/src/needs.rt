// Clause 12.17. It comes after 3, 4 and 5 of its row, by which j is small and D at most b: so the product of j and D fits.
ghost use Rattle.std.specs.Prelude.{◌≡◌, ◌≤◌};
ghost use Rattle.terms.specs.Limits.{max_burst, max_need};
ghost use Rattle.terms.specs.Refusals.{verdict_of, faultless};
ghost use Rattle.terms.specs.Table.{fields_verdict, need_fits, need_fits_verdict};

use terms::place::Requestor;
use terms::refusals::{Cause, InputRefusal};

// Whether the need of a row is no larger than its burst: clause 2.3 itself, of which the check below makes the refusal.
#[tactic(auto, unfolding(terms::specs::Table::need_fits))]
pub fn need_fits(d: u64, r: Requestor) -> bool
    requires { (d ≤ max_burst) × (r.need.0 ≤ max_need) }
    ensures { result ≡ need_fits d r }
{
    r.need.0 * d <= r.burst
}

// Clause 12.17 of the requestor at place p, which passed 3, 4 and 5.
#[tactic(auto, using(terms::proofs::Checks::row_open), unfolding(terms::specs::Table::need_fits_verdict, terms::specs::Refusals::gate))]
pub fn check_need_fits(d: u64, p: usize, r: Requestor) -> Result<(), Cause>
    requires { fields_verdict d p r ≡ faultless }
    ensures { verdict_of result ≡ need_fits_verdict d p r }
{
    if need_fits(d, r) {
        return Ok(());
    }
    Err(InputRefusal::NeedAboveBurst(p).into())
}
