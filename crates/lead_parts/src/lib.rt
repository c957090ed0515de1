// What a lead is made of: the grants of a place in a log, and the difference of two products. Whoever asks for a lead has tested the log's
// length and the state before, so that both fit.
#![tactic(auto)]

ghost use Rattle.std.specs.Prelude.{◌≡◌, ◌*◌, ◌≤◌, pos, ◌-ℤ◌, length};
ghost use Rattle.terms.specs.Limits.{max_denominator, max_input};
ghost use Rattle.lead_parts.specs.Counts.{bytes_equal};

use terms::units::{Slots, Transfers};

// The transfers that a log grants to place p: its bytes equal to p.
pub fn count_grants(log: &[u8], p: usize) -> Transfers
    requires { length log.now ≤ max_input }
    ensures { result.0 ≡ bytes_equal p log.now }
{
    // A loop: `filter` and `count` of an iterator took three times as long, and more on a log in no order.
    let mut grants = 0;
    for byte in log {
        if *byte as usize == p {
            grants += 1;
        }
    }
    Transfers(grants)
}

// D times the grants, less n times the slots.
pub fn difference(d: u64, grants: Transfers, n: u64, slots: Slots) -> i64
    requires { (d ≤ max_denominator) × (grants.0 ≤ max_input) × (n ≤ max_denominator) × (slots.0 ≤ max_input) }
    ensures { result ≡ pos (d * grants.0) -ℤ pos (n * slots.0) }
{
    (d as i64) * (grants.0 as i64) - (n as i64) * (slots.0 as i64)
}
