// No program: the table as a definition stands in specs/, its theorems in proofs/.
#![tactic(auto)]
