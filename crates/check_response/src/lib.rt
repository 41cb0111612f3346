// The response check (draft 19, section 5.4): a response passes exactly when every check holds, and then its window
// and its delegated key come out.
#![tactic(auto)]

mod agreement;
mod checking;
mod downgrading;
mod windows;

pub use checking::check_response;
use refusal::Refusal;
pub use windows::low_end;

// What a valid response says of the time: MIDP and RADI, and the ends of its window, which stop at 0 and at 2^64 - 1;
// and from when to when its key is trusted, MINT and MAXT.
#[derive(Clone, Copy)]
pub struct Window {
    pub midp: u64,
    pub radi: u32,
    pub low: u64,
    pub high: u64,
    pub mint: u64,
    pub maxt: u64,
}

// The window of a response that passes, or why it is refused.
pub type Verdict = Result<Window, Refusal>;

// What the check answers: the verdict, and beside it the delegated key, PUBK, which is 32 zero bytes on a refusal. The
// key stands beside the verdict and not in it: the theorem `key-hidden`, and what C is told of a refusal, speak of it.
#[derive(Clone, Copy)]
pub struct Checked {
    pub verdict: Verdict,
    pub pubk: [u8; 32],
}
