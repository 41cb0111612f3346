// The point that 32 bytes stand for (RFC 8032, 5.1.3), and the 32 bytes of a point (5.1.2).
#![tactic(auto)]

mod constants;
mod encoding;
mod points;
mod reading;
mod recovering;
mod roots;

pub use encoding::encode;
pub use points::decode;
