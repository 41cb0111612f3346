// Base64 by RFC 4648, section 4, read strictly: each byte string has one text, and that text alone is read as it.
#![tactic(auto)]

mod alphabet;
mod decoding;
mod encoding;
mod letters;

pub use decoding::group_of;
pub use encoding::encode;
pub use letters::{is_letter, three_of};

// The bytes that four characters stand for: three, or fewer in the last group. Characters that no bytes are written as are
// no group, and have None in its place. No array with a length beside it: each number of bytes has its own rule of pads.
#[derive(Clone, Copy)]
pub enum Group {
    Three(u8, u8, u8),
    Two(u8, u8),
    One(u8),
}

// Fills the last group where it has fewer than three bytes.
const PAD: u8 = b'=';
