// No program: the original's table as a definition stands in specs/, demand 2 in proofs/.
#![tactic(auto)]
