// Where each field of a table stands in the 32-bit numbers that it is given as: D, N, and then, place after place, rate, burst, need and
// within. No other module indexes numbers that are handed in. The readers are not those of `words` with another type: width and offsets
// both differ, and each stands beside its offsets.
ghost use Rattle.std.specs.Prelude.{◌≡◌, ◌+◌, ◌≤◌, length, get_or};
ghost use Rattle.terms.specs.Limits.{max_places};
ghost use Rattle.layout.specs.Numbers.{row_start, right_numbers, numbers_row};

use terms::place::Requestor;
use terms::units::{Slots, Transfers};

// D and N stand ahead of the rows.
const HEAD: usize = 2;

// Rate, burst, need and within.
const ROW: usize = 4;

const DENOMINATOR: usize = 0;

const COUNT: usize = 1;

const BURST: usize = 1;

const NEED: usize = 2;

const WITHIN: usize = 3;

// As many numbers as a table has that has room for so many places.
pub fn numbers_are_right(numbers: &[u32], room: usize) -> bool
    requires { room ≤ max_places }
    ensures { result ≡ right_numbers room numbers.now }
{
    numbers.len() == HEAD + ROW * room
}

pub fn denominator_of(numbers: &[u32]) -> u64
    requires { 2 ≤ length numbers.now }
    ensures { result ≡ get_or numbers.now 0 0 }
{
    numbers[DENOMINATOR] as u64
}

pub fn count_of(numbers: &[u32]) -> usize
    requires { 2 ≤ length numbers.now }
    ensures { result ≡ get_or numbers.now 1 0 }
{
    numbers[COUNT] as usize
}

pub fn requestor_of(numbers: &[u32], p: usize) -> Requestor
    requires { row_start (p + 1) ≤ length numbers.now }
    ensures { result ≡ numbers_row numbers.now p }
{
    let at = HEAD + ROW * p;
    Requestor {
        rate: numbers[at] as u64,
        burst: numbers[at + BURST] as u64,
        need: Transfers(numbers[at + NEED] as u64),
        within: Slots(numbers[at + WITHIN] as u64),
    }
}
