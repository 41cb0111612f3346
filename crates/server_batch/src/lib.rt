// A whole batch in one call (draft 19, 5.2 and 5.3): which of the packets are answered, the tree over these, one
// signature by the delegated key, and the answers, each at the front of its slot.
#![tactic(auto)]

mod answering;
mod batch;
mod choosing;
mod fitting;
mod laying;
mod marking;
mod measuring;
mod packets;
mod refusing;
mod saying;
mod service;
mod serving;

pub use batch::answer_batch;

// What all answers of a batch say: the root of its tree, the time and its radius, and the signature over these.
#[derive(Clone, Copy)]
struct Said {
    root: [u8; 32],
    midp: u64,
    radi: u32,
    signature: [u8; 64],
}

// What all answers of a batch have in common: the rows of the tree over their leaves and its depth, what they say, the
// value of CERT, and how many bytes the slot of an answer has.
#[derive(Clone, Copy)]
struct Common<'a> {
    rows: &'a [u8],
    depth: u32,
    said: Said,
    cert: &'a [u8],
    room: usize,
}
