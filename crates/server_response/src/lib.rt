// What a server writes (request P1; draft 19, 5.2): the whole response to a request, at the front of the lent buffer,
// where later bytes stay, or nothing. `write_response` has no `requires`; what else is public is for the crate above.
#![tactic(auto)]

mod refusing;
mod responding;

pub use refusing::{cert_code, midp_outside};
pub use responding::{put_end, put_front, write_response};
