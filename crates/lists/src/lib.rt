// Definitions and laws on lists and on runs of calls, which every other crate's specs/ use. There is no code here.
#![tactic(auto)]
