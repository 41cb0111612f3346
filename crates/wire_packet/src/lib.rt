// Packets, requests and responses: codes 1 to 8 in document 01's order, and what a good packet says.
// `read_request`, `read_response`, `read_signed_parts`, `request_code`, `request_bad`, `response_code`, `signed_code`
// and `packet_code` take any bytes. What else is public is for the crates above, once these answered Ok: `Shaped` and
// `Asks` say then what a message holds. They are facts about bytes, as the definitions are, and no types around them.
#![tactic(auto)]

pub mod fields;
pub mod packet;
mod parts;
mod requests;
mod responses;
mod shape;
pub mod tables;

pub use parts::read_signed_parts;
pub use requests::{read_request, request_bad, request_code};
pub use responses::{read_response, response_code, signed_code, srep_version};
pub use shape::dele_of;

// What a request says.
#[derive(Clone, Copy)]
pub struct Request {
    pub nonc: [u8; 32],
    pub srv: Option<[u8; 32]>,
}

// What a response says.
#[derive(Clone, Copy)]
pub struct Response {
    pub nonc: [u8; 32],
    pub indx: u32,
    pub midp: u64,
    pub radi: u32,
    pub root: [u8; 32],
}

// What a host verifies of a response by itself: the signature over SREP, the signature over DELE, and the key that
// signs SREP.
#[derive(Clone, Copy)]
pub struct SignedParts {
    pub signature: [u8; 64],
    pub delegation: [u8; 64],
    pub pubk: [u8; 32],
}
