// The counts of a slot, read from the input (clause 14.1).
ghost use Rattle.std.specs.Prelude.{◌≡◌, ◌≤◌};
ghost use Rattle.terms.specs.Limits.{max_places};
ghost use Rattle.reads.specs.Reads.{counts_read};
ghost use Rattle.reads.specs.Parts.{counts_of};

use arbiter::state::Arbiter;
use groups::reading::read_number;
use terms::refusals::Cause;

// The n counts at the start of the bytes, each read from the bytes that the one before it left: the first n of an array for the largest N,
// as there is no heap. Refused: 8, 9.
pub fn read_counts(bytes: &[u8], n: usize) -> Result<([u32; Arbiter::MAX_PLACES], &[u8]), Cause>
    requires { n ≤ max_places }
    ensures { counts_of n result ≡ counts_read n bytes.now }
{
    let mut counts = [0u32; Arbiter::MAX_PLACES];
    let mut left = bytes;
    for p in 0..n {
        let (count, rest) = read_number(left)?;
        counts[p] = count;
        left = rest;
    }
    Ok((counts, left))
}
