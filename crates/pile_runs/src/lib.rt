// Contradiction of windows, and the shortest run of records that convicts by itself.
// A pile is here what is known of its records: the verdict on each, and whether it is linked to the one before it.
#![tactic(auto)]

mod compare;
mod inspect;
mod search;

use check_response::Verdict;
pub use compare::contradicts;

// What is known of the first n records of a pile, and of no more than 16. It is two arrays and no array of pairs, since
// the links are sought only when all verdicts are there, and the definitions read each by itself.
#[derive(Clone, Copy)]
pub struct Known {
    pub verdicts: [Verdict; 16],
    pub linked: [bool; 16],
    pub n: usize,
}
