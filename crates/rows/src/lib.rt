#![tactic(auto)]

// The second program's rows of AES-OTR over AES, computed from the definitions of the crates below. There is no code here: see proofs/.
