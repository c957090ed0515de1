// The chain figure of a place: within how many slots the last of a chain of places is granted, if each is posted to as clause 9.4 says.
// Which place follows which comes with the call, and nothing of it is kept.
#![tactic(auto)]

pub mod chain;
mod following;
