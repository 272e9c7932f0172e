#![tactic(auto)]

// FIPS 197's examples and document 01's small rows, computed from the definitions of the crates below. There is no code here: see proofs/.
