// Demand 3 for a caller from C: the statements stand in specs/, their proofs in proofs/; and values at which the theorems on a feed from C are applied. There is no
// code here.
#![tactic(auto)]
