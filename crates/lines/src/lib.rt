// The texts that the program slotlist prints, in a lent buffer: numbers and items, and the lines that are made of them.
#![tactic(auto)]

pub mod lines;
mod text;
