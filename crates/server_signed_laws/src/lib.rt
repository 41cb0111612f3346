// That what a server signs with its own two seeds passes the check that verifies signatures by itself, for each request
// of a batch: what is claimed (specs/) and the theorems (proofs/). There is no code here.
#![tactic(auto)]
