// [s]B + [k]A at once: the doublings are shared, and each scalar goes in as odd digits from -15 to 15, between two of
// which lie four zeros or more, over tables of odd multiples.
#![tactic(auto)]

mod base;
mod multiples;
mod recoding;
mod turns;

pub use turns::times_two;
