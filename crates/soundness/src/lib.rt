// Test 23 on lent words, whatever they hold, and behind it check 11. Nothing is narrowed, and no sum of unchecked words is formed.
#![tactic(auto)]

pub mod place;
pub mod soundness;
