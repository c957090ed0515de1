// The theorem that what `replay` writes is what the service bounds speak of: specs/ has its statement, proofs/ its proof. There is no
// code here.
#![tactic(auto)]
