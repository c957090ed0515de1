// The theorem that the texts of slotlist's steps in a row are the listing: specs/ has its statements, proofs/ their proofs. There is no
// code here.
#![tactic(auto)]
