// No program: what may happen during a walk stands in specs/, demand 3 in proofs/.
#![tactic(auto)]
