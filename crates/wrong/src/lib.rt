#![tactic(auto)]

// Wrong programs: each is shown not to meet a promise of `link` or of the calls from C, at inputs that are named. There is no code here. The
// bytes of these inputs are computed with AES, which takes the checker more than a minute: so they stand apart from `demands`.
