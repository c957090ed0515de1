// A number at the start of some bytes that is held to its bounds.
ghost use Rattle.std.specs.Prelude.{◌≡◌};
ghost use Rattle.terms.specs.Table.{bounds_of};
ghost use Rattle.table_bytes.specs.Reading.{field_read, read_of};

use groups::reading::read_number;
use terms::bounds::Bounds;
use terms::refusals::Cause;

// The number at the start of the bytes is read (8, 9) and checked.
#[tactic(auto, using(crate::proofs::Readings::number_handed), unfolding(crate::specs::Reading::field_read, crate::specs::Reading::next))]
pub fn read_field(bytes: &[u8], bounds: Bounds) -> Result<(u32, &[u8]), Cause>
    ensures { read_of result ≡ field_read (bounds_of bounds) bytes.now }
{
    let (x, rest) = read_number(bytes)?;
    bounds.hold(x as u64)?;
    Ok((x, rest))
}
