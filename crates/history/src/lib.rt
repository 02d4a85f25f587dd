// Theorems over every history. Their words stand in specs/, the proofs in proofs/; there is no code here.
#![tactic(auto)]
