// The statements a reader came for stand in specs/, their proofs in proofs/: there is no code here.
#![tactic(auto)]
