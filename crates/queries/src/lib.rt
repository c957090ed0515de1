// The queries about a state, or about a table, that is lent as words. Each leaves the words as they are. Words that are no sound state's get
// 23; of the two writers one asks admission first, and the other is lent a table that passed it.
#![tactic(auto)]

pub mod figures;
pub mod lead;
pub mod look;
pub mod write;
