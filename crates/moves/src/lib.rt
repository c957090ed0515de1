// Post, slot and run on a state's words, in place. Words that are no sound state's get 23.
#![tactic(auto)]

pub mod posts;
pub mod runs;
pub mod slots;
