// The time, though some servers lie. The state keeps the two newest windows of each of 8 servers, with when, by the
// host's own clock, each was asked for and received. It is the caller's, handed in and handed back; any state at all
// may come in.
#![tactic(auto)]

mod keeping;
mod reading;
mod telling;

use clock_spans::Kept;
pub use keeping::{start, take};
pub use telling::time_at;

// The state: how far the host's own clock may go wrong, in parts per million, and the windows that are kept, of which
// 2 s and 2 s + 1 are the newest of server s and the one before it. Where the last second of use is 0 there is none.
#[derive(Clone, Copy)]
pub struct Clock {
    pub drift: u32,
    pub kept: [Kept; 16],
}

// The time at a moment: its two ends, in microseconds since 1970, whether the high one stopped at 2^64 - 1, and how
// many servers were counted. `agree` and `suspects` are sets of these, in which server s counts 2^s: those whose span
// meets the time, and those whose span does not. `stopped` says no more than that the high end is 2^64 - 1: it is told
// to C by itself.
#[derive(Clone, Copy)]
pub struct Time {
    pub low: u64,
    pub high: u64,
    pub stopped: bool,
    pub counted: u64,
    pub agree: u64,
    pub suspects: u64,
}
