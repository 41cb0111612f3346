// A walk among servers that sign with their own seeds (requests P10 and P11): there is one, to its end, on which every
// signature verifies; and where an earlier window lies wholly after a later one, the pile convicts. What is claimed
// stands in specs/, the theorems in proofs/. There is no code here.
#![tactic(auto)]
