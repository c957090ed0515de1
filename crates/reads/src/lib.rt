// What the program slotlist reads of its input: the beginning, which comes to a state, and the counts of a slot.
#![tactic(auto)]

pub mod beginning;
pub mod counts;
