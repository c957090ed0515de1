// One row of a table: n, b, j and L, each read from the bytes that the one before it left, and then check 17.
ghost use Rattle.std.specs.Prelude.{◌≡◌};
ghost use Rattle.table_bytes.specs.Reading.{row_fields_read, row_read, read_of};

use crate::fields::read_field;
use admission::needs::check_need_fits;
use arbiter::bounds::{burst_bounds, need_bounds, rate_bounds, within_bounds};
use terms::place::Requestor;
use terms::refusals::Cause;
use terms::units::{Slots, Transfers};

// The four numbers of place p at the start of the bytes, each within its limits.
#[tactic(auto, unfolding(crate::specs::Reading::row_fields_read, crate::specs::Reading::next))]
fn read_row_fields(bytes: &[u8], d: u64, p: usize) -> Result<(Requestor, &[u8]), Cause>
    ensures { read_of result ≡ row_fields_read d p bytes.now }
{
    let (rate, bytes) = read_field(bytes, rate_bounds(d, p))?;
    let (burst, bytes) = read_field(bytes, burst_bounds(d, p))?;
    let (need, bytes) = read_field(bytes, need_bounds(p))?;
    let (within, bytes) = read_field(bytes, within_bounds(p))?;
    let row = Requestor {
        rate: rate as u64,
        burst: burst as u64,
        need: Transfers(need as u64),
        within: Slots(within as u64),
    };
    Ok((row, bytes))
}

// The row of place p at the start of the bytes. Refused: 3, 4, 5, 8 and 9 as its numbers are read, then 17.
#[tactic(auto, using(crate::proofs::Accepted::row_limits), unfolding(crate::specs::Reading::row_read, crate::specs::Reading::next))]
pub fn read_row(bytes: &[u8], d: u64, p: usize) -> Result<(Requestor, &[u8]), Cause>
    ensures { read_of result ≡ row_read d p bytes.now }
{
    let (row, bytes) = read_row_fields(bytes, d, p)?;
    check_need_fits(d, p, row)?;
    Ok((row, bytes))
}
