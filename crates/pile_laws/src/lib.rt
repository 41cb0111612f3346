// More evidence never acquits (request P14): what records that are added at the end of a pile do to the check of a
// report and to the cutter. There is no code here, only what is claimed (specs/) and the theorems (proofs/).
#![tactic(auto)]
