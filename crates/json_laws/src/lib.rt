// RFC 8259's grammar, and what a text means by it (specs/); that the readers of JSON accept just what the grammar
// derives, and find what it means (proofs/). There is no code here.
#![tactic(auto)]
