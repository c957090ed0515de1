// For C, and for whatever links C: the functions of include/justrave.h. Each is one call of justrave's function of that name, with its
// promise, and stands where that one does.
#![tactic(auto)]

pub mod orders;
pub mod starting;
pub mod state_queries;
pub mod states;
