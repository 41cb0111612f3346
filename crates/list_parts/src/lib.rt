// Parts of a server list in the public format (draft 19, section 8.3), by their places, which count from 0: the name
// and the addresses of a server that can be asked, a source, and where reports go. Each is put into a buffer as octets.
#![tactic(auto)]

mod parts;
mod places;
mod strings;

pub use parts::{list_reports, list_source, server_address, server_name};

// How many octets an address has that was put, by the protocol over which it is asked.
#[derive(Clone, Copy)]
pub enum Addressed {
    Udp(usize),
    Tcp(usize),
}
