// Contradiction in one pass. Of the windows so far only the largest MIDP - RADI is kept: a window contradicts an
// earlier one exactly where its MIDP + RADI is below that.
#![tactic(auto)]

mod keeping;
mod passing;

pub use keeping::{start, take_window};
pub use passing::{any_contradiction, pile_contradicts};

// What is kept of the windows so far: the largest MIDP - RADI, and 0 where there is none above 0. Any number at all is
// what is kept of some windows.
#[derive(Clone, Copy)]
pub struct Tally {
    pub most: u64,
}

// What one window more makes of it, and whether that window contradicts an earlier one. Neither stands in for the other:
// the state goes on after a contradiction, and `AsItGoes` speaks of both as one answer.
#[derive(Clone, Copy)]
pub struct Tallied {
    pub tally: Tally,
    pub contradicts: bool,
}
