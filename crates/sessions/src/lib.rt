#![tactic(auto)]

// Sessions with a sealer (document 02, wish 3): what any number of calls come to, as statements about the promises of `sealer`, and what
// these rule out. There is no code here: the words of the statements are in specs/, their proofs in proofs/.
