// The whole way of the evidence (requests P7, P10 and P11): what a walk saw, written as JSON, read by someone else,
// judged by its own signatures, cut and written again (specs/), and the theorem that it convicts (proofs/). There is no
// code here.
#![tactic(auto)]
