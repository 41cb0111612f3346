// That what is signed verifies (RFC 8032, 5.1.5 to 5.1.7), for every seed and every text: what is claimed (specs/) and
// the theorems (proofs/). There is no code here.
#![tactic(auto)]
