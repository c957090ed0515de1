// What the definitions speak of, and the code with them: units, refusals, answers, bounds, and what stands at a place. No limit is needed
// here; the limits are constants of the arbiter's own type, above.
#![tactic(auto)]

pub mod answers;
pub mod bounds;
pub mod place;
pub mod refusals;
pub mod units;
