// What each number of a table is held to, with the refusal of a number outside: checks 1 to 5. A table given as numbers and a
// table's bytes are held to the same.
// Six functions, and not one that takes low and high: so each bound stands under its own name, beside the definition that it is.
ghost use Rattle.std.specs.Prelude.{◌≡◌};
ghost use Rattle.terms.specs.Table.{bounds_of, denominator_bounds, count_bounds, rate_bounds, burst_bounds, need_bounds, within_bounds};

use crate::state::Arbiter;
use terms::bounds::Bounds;
use terms::refusals::InputRefusal;

// D, the denominator.
pub fn denominator_bounds() -> Bounds
    ensures { bounds_of result ≡ denominator_bounds }
{
    Bounds {
        low: 1,
        high: Arbiter::MAX_DENOMINATOR,
        outside: InputRefusal::Denominator,
    }
}

// N, the number of requestors, where there is room for so many places.
pub fn count_bounds(room: usize) -> Bounds
    ensures { bounds_of result ≡ count_bounds room }
{
    Bounds {
        low: 1,
        high: room as u64,
        outside: InputRefusal::Count,
    }
}

// The rate n at place p.
pub fn rate_bounds(d: u64, p: usize) -> Bounds
    ensures { bounds_of result ≡ rate_bounds d p }
{
    Bounds {
        low: 1,
        high: d,
        outside: InputRefusal::Rate(p),
    }
}

// The burst b at place p.
pub fn burst_bounds(d: u64, p: usize) -> Bounds
    ensures { bounds_of result ≡ burst_bounds d p }
{
    Bounds {
        low: d,
        high: Arbiter::MAX_BURST,
        outside: InputRefusal::Burst(p),
    }
}

// j, the transfers of the need at place p.
pub fn need_bounds(p: usize) -> Bounds
    ensures { bounds_of result ≡ need_bounds p }
{
    Bounds {
        low: 1,
        high: Arbiter::MAX_NEED,
        outside: InputRefusal::Need(p),
    }
}

// L, the slots of the need at place p.
pub fn within_bounds(p: usize) -> Bounds
    ensures { bounds_of result ≡ within_bounds p }
{
    Bounds {
        low: 1,
        high: Arbiter::MAX_WITHIN,
        outside: InputRefusal::Need(p),
    }
}
