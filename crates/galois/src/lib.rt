// The fields of 256 elements, from FIPS 197, over any reduction polynomial: definitions in specs/, laws in proofs/.
// It has no functions.
#![tactic(auto)]
