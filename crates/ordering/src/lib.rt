// Places for a table's requestors by their needs: of a table by value, and of one that was laid into words.
#![tactic(auto)]

pub mod order;
mod search;
