// Numbers in groups of seven bits (clause 3.1): read from the start of some bytes, and written to the start of a buffer.
#![tactic(auto)]

pub mod reading;
pub mod writing;
