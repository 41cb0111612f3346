// The measuring walk with no answers lent (requests P10 and P11): what the walk's taker says of a response where our
// own Ed25519 verifies its signatures, under the key of the server that was asked. Any state, bytes and buffer at all
// are taken.
#![tactic(auto)]

mod taking;

pub use taking::take_signed;

// What the host has of a response beside its packet, where it lends no answers: the local seconds at which its request
// was sent and it was received, and the rand for the next nonce.
#[derive(Clone, Copy)]
pub struct Exchange {
    pub sent: u64,
    pub received: u64,
    pub rand: [u8; 32],
}
