// For firmware in C or Rust: the calls on a state that is lent as words, with room for 1 place to the largest N, each of which works on the
// caller's words and copies no state; and the call that puts a table's bytes in order.
#![tactic(auto)]

mod lent;
pub mod orders;
pub mod starting;
pub mod state_queries;
pub mod states;
