// What holds of reports in the public format (request P7): which texts are reports, in the words of draft 19, 8.4.1
// (specs/), and the theorems that the reader and the writers keep to them (proofs/). There is no code here.
#![tactic(auto)]
