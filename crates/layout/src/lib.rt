// A state as 64-bit words, and a table as 32-bit numbers: where each field stands, and how a table is laid into words.
#![tactic(auto)]

pub mod laying;
pub mod lent;
pub mod numbers;
pub mod words;
