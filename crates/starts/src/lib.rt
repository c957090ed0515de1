// A table's bytes read into a state's words, and a start in place: from a table given as numbers, and from a table's bytes. Words have room
// for 1 place to the largest N.
#![tactic(auto)]

pub mod bytes;
pub mod laying;
pub mod numbers;
