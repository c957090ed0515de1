// The bytes of some numbers: how many they are, and written one number behind the other.
#![tactic(auto)]

ghost use Rattle.std.specs.Prelude.{◌≡◌, ◌≤◌, ◌+◌, ◌*◌, length};
ghost use Rattle.lists.specs.Sums.{joined};
ghost use Rattle.lists.specs.Overwriting.{written_over};
ghost use Rattle.groups.specs.Groups.{number_bytes};
ghost use Rattle.terms.specs.Limits.{max_places};

use arbiter::state::Arbiter;
use groups::writing::{number_len, write_number};

// A table's numbers: D, N, and four to each place.
pub const MAX_NUMBERS: usize = 2 + 4 * Arbiter::MAX_PLACES;

// How many bytes the numbers take.
pub fn bytes_len(numbers: &[u32]) -> usize
    requires { length numbers.now ≤ 2 + 4 * max_places }
    ensures { result ≡ length (joined number_bytes numbers.now) }
{
    numbers.iter().map(|x| number_len(*x)).sum()
}

// The numbers' bytes in a buffer that has room for them, one number behind the other.
pub fn put_numbers(numbers: &[u32], buffer: &mut [u8])
    requires { length (joined number_bytes numbers.now) ≤ length buffer.old }
    ensures { buffer.new ≡ written_over (joined number_bytes numbers.now) buffer.old }
{
    let mut at = 0;
    for x in numbers {
        at += write_number(*x, &mut buffer[at..]);
    }
}
