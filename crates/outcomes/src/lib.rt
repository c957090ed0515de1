// The outcome of an exported call as one number (clause 15.4).
#![tactic(auto)]

pub mod codes;
