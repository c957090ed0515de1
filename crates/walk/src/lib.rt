// The rule of a slot (clauses 5.2 to 5.5), in place on a state's words.
#![tactic(auto)]

pub mod slot;
