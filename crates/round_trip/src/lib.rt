// The theorem that reading a table's bytes and writing them are inverse: specs/ has its statements, proofs/ their proofs. There is no
// code here.
#![tactic(auto)]
