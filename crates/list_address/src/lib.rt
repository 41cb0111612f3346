// The addresses of servers and the URLs in a list of servers (draft 19, section 8.3): a host and a port, and https.
// Each test is of a whole byte string. Nothing is resolved, and nothing is asked of the network.
#![tactic(auto)]

mod address;
mod chars;
mod decimal;
mod domain;
mod host;
mod https;
mod ipv4;
mod ipv6;
mod parts;
mod scan;

pub use address::is_address;
pub use https::is_https;
