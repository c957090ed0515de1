// What holds of the calls on lent words together, and worked examples of each: specs/ has the statements and the rows, proofs/ their proofs.
// There is no code here.
#![tactic(auto)]
