// The theorem that a state which was carried over runs on alike: specs/ has the statements, proofs/ their proofs. There is no code here.
#![tactic(auto)]
