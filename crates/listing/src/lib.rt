// What the program slotlist prints: the slot that some counts belong to, and the steps, each of which puts its text in a lent buffer.
#![tactic(auto)]

mod post_and_slot;
pub mod steps;
