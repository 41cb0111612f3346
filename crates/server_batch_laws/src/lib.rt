// What holds of a batch that is answered in one call: what is claimed (specs/) and the theorems (proofs/). There is no
// code here.
#![tactic(auto)]
