// A state from before request 5, in words of its own, carried over into words of today (clause 11.4).
#![tactic(auto)]

pub mod carry;
pub mod old_words;
