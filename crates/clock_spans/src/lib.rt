// What a window that was kept says of a later moment, by a clock of the host's that may go wrong a little (draft 19,
// section 6). Ends of windows are seconds since 1970, moments are microseconds of the host's own clock, and the ends of
// spans are microseconds since 1970.
#![tactic(auto)]

mod drifting;
mod spanning;

pub use drifting::{high_later, low_later};
pub use spanning::{is_used, server_span};

// A window that was kept: its ends and the last second at which it may be used, in seconds since 1970; and when its
// request was first sent and its response received, in microseconds of the host's own clock.
#[derive(Clone, Copy)]
pub struct Kept {
    pub low: u64,
    pub high: u64,
    pub maxt: u64,
    pub sent: u64,
    pub received: u64,
}

// What a window, or a server, says of a moment: whether it is counted, and between which points the time is then.
// The flag stands beside the ends, since where nothing is said any time is possible: so two meet with no case between.
#[derive(Clone, Copy)]
pub struct Span {
    pub counted: bool,
    pub low: u64,
    pub high: u64,
}

// What eight servers say, server s at place s. Whether one is counted stands in its own span, and no count beside them.
pub type Spans = [Span; 8];
