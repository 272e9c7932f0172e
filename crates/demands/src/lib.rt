#![tactic(auto)]

// The client's three demands as statements about the promises of `link`, and the same for the calls from C, which carry them
// (proofs/Firmware.antt). There is no code here: the words of the statements are in specs/, their proofs in proofs/. What the promises
// rule out is in `wrong`.
