// Timestamps of the 2021 draft (source document 002), out of old captures (request P12): the ends of a stamp's window,
// and no more.
#![tactic(auto)]

mod ends;
mod reading;

pub use reading::old_window;

// The ends of an old stamp's window, in seconds since 1970. It is a type of its own, and no crate that checks
// responses, piles or reports is above this one: an old window enters none of them.
#[derive(Clone, Copy)]
pub struct OldWindow {
    pub low: u64,
    pub high: u64,
}
