// A table's bytes, number by number and row by row. The arbiter knows nothing of them.
#![tactic(auto)]

pub mod fields;
pub mod rows;
