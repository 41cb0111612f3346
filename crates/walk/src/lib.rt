// The measuring walk (draft 19, 8.2; request P10): 3 to 8 servers are asked in turn, and then the same ones in the same
// order again. The state is the caller's, handed in and handed back at each call, and the pile stands at the front of a
// buffer that the caller lends. Any state and any buffer at all are taken.
#![tactic(auto)]

mod asking;
mod recording;
mod starting;
mod taking;

pub use asking::{ask, key_of, request_now};
use check_response::Window;
use pile_report::Report;
pub use starting::start;
pub use taking::{accept, step_code, take};

// The state between packets: the servers' keys, 32 bytes each, and how many there are; the step, from 0; the nonce of
// the request that is asked, and the rand that it was made with. `last` is when the last accepted response was
// received, and `most` the longest delay that is allowed.
#[derive(Clone, Copy)]
pub struct Walk {
    pub keys: [u8; 256],
    pub count: usize,
    pub step: usize,
    pub nonce: [u8; 32],
    pub rand: [u8; 32],
    pub last: u64,
    pub most: u64,
}

// What is asked next: which server, from 0, and the nonce.
#[derive(Clone, Copy)]
pub struct Asked {
    pub server: usize,
    pub nonce: [u8; 32],
}

// What the host has of a response beside its packet: whether its two signatures verify, the local seconds at which its
// request was sent and it was received, and the rand for the next nonce. The two answers stay two flags: a host's
// library answers each signature by itself, and the response check takes the two one by one.
#[derive(Clone, Copy)]
pub struct Heard {
    pub delegation: bool,
    pub signature: bool,
    pub sent: u64,
    pub received: u64,
    pub rand: [u8; 32],
}

// What is said of an accepted response. `Next`: there is a next to ask. `Ended`: it is the last, with what the report
// check says of the pile. Both have its window.
#[derive(Clone, Copy)]
pub enum Said {
    Next(Window),
    Ended(Window, Report),
}

// That, and the state for the next call. Beside a refusal stands none: the caller's stays.
#[derive(Clone, Copy)]
pub struct Stepped {
    pub said: Said,
    pub walk: Walk,
}
