// The public key of a seed, and signatures: Ed25519 of RFC 8032, sections 5.1.5 and 5.1.6. No branch, no index and no
// early end hangs on the seed or on what is made of it: the one `if` is on the lengths of the text.
#![tactic(auto)]

mod encoding;
mod expanding;
mod halves;
mod multiplying;
mod pruning;
mod signing;

use ed25519_scalar::Scalar;
pub use signing::{public_key, sign, sign_parts, sign_parts_with};

// What a seed is expanded to: the scalar s in bytes, the prefix, and the veil, a 0 of which a compiler does not know
// that it is 0.
#[derive(Clone, Copy)]
struct Secret {
    scalar: [u8; 32],
    prefix: [u8; 32],
    zero: u64,
}

// The number r, and the string R.
#[derive(Clone, Copy)]
struct First {
    number: Scalar,
    string: [u8; 32],
}
