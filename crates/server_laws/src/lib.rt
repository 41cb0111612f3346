// What holds of a server's answers (request P1): sentences (specs/), and the theorems that what `server_response`
// writes keeps them (proofs/). There is no code here.
#![tactic(auto)]
