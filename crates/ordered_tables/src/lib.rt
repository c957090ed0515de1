// The theorems about a table that was put in order: specs/ has their statements, proofs/ their proofs. There is no code here.
#![tactic(auto)]
