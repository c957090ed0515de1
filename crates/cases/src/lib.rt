// Worked cases and edges as rows: specs/ has the rows and the one evaluator, proofs/ that every row passes. There is no
// code here.
#![tactic(auto)]
