// Document 01's starred examples: the table (specs/), that each row of it holds, and that each speaks of something
// (proofs/). There is no code here.
#![tactic(auto)]
