// Texts written as strings of JSON (RFC 8259, section 7): which octets are UTF-8, how much room a string takes, and the
// string itself.
#![tactic(auto)]

mod quoting;
mod spending;
mod utf8;

pub use quoting::put_quoted;
pub use spending::{quoted_room, spend};
pub use utf8::is_utf8;
