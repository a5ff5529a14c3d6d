// Rows over any field of 256 elements: the row rules, combinations, blocks and kernels, in specs/; the theorems on them in proofs/.
// It has no functions.
#![tactic(auto)]
