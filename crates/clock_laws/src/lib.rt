// What holds of the time that a clock tells, where its windows came about as windows do: a true time that the host's
// own clock follows within its drift, honest servers and liars (specs/), and the theorems (proofs/). There is no code
// here.
#![tactic(auto)]
