// The arbiter's own type: its limits, its words, admission and start. A table is handed in as numbers and laid into words, and the checks
// know words only. What calls then do to a state stands in the crate calls.
#![tactic(auto)]

pub mod admit;
pub mod bounds;
mod checks;
pub mod input;
pub mod old;
pub mod rows;
pub mod start;
pub mod state;
pub mod table;
