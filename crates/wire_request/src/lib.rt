// What we write: the request, and the two texts that are signed.
// Each writer writes at the front of the lent buffer, where later bytes stay, or nothing.
#![tactic(auto)]

mod request;
mod texts;

pub use request::write_request;
pub use texts::{DELEGATION, RESPONSE, delegation_text, response_text};
