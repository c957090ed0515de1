// The thin form of slot, through a reference, for a main loop (clause 1.4).
#![tactic(auto)]

ghost use Rattle.std.specs.Prelude.{◌≡◌};
ghost use Rattle.terms.specs.Limits.{max_places};
ghost use Rattle.arbiter.specs.ByValue.{held};
ghost use Rattle.rule.specs.Calls.{slot, called};
ghost use Rattle.calls.specs.ByValue.{slot_result_of};

use arbiter::state::Arbiter;
use calls::slot::slot;
use terms::answers::{Outcome, Slot};
use terms::refusals::Cause;

// The lent state is what the by-value slot hands back, and the answer is its answer. Refused, 23 and 22 (clause 13.8): it is as it was.
pub fn slot_in_place(s: &mut Arbiter) -> Result<Slot, Cause>
    ensures { slot_result_of (record { after = s.new; answer = result }) ≡ called max_places (held s.old) slot }
{
    let Outcome { after, answer } = slot(*s);
    *s = after;
    answer
}

// For a caller that holds the state by value: it is lent to the thin form and handed back.
pub fn slot_through_reference(mut s: Arbiter) -> Outcome<Arbiter, Slot>
    ensures { slot_result_of result ≡ called max_places (held s) slot }
{
    let answer = slot_in_place(&mut s);
    Outcome { after: s, answer }
}
