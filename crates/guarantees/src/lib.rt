// The theorems about lists of calls: specs/ has their statements, proofs/ their proofs. There is no code here.
#![tactic(auto)]
