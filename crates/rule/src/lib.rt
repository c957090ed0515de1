// The rule of a slot (clauses 5.2 to 5.5) on one place's row and account. The walk over the places stands in the crate walk.
#![tactic(auto)]

pub mod rule;
