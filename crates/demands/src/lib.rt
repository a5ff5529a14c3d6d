// What the port promises beyond its contracts, as theorems over the definitions that the contracts cite: statements in specs/, proofs in
// proofs/. It has no functions.
#![tactic(auto)]
