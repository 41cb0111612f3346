// Server lists written in the public format (draft 19, section 8.3): one server object, and a whole list.
#![tactic(auto)]

mod checking;
mod decimal;
mod items;
mod lending;
mod lines;
mod many;
mod objects;
mod pieces;
mod rows;
mod server;
mod sizing;
mod tails;
mod whole;
mod writing;

use lending::Servers;
use server::Server;
pub use writing::{write_server, write_servers};

// The most servers of a list, and the most addresses of a server.
const SERVERS: usize = 64;

const ADDRESSES: usize = 8;

// What a line is to hold: a source, which is a URL; or an address behind its protocol and a blank. It is public for the
// definitions, which laws of other crates name.
#[derive(Clone, Copy)]
pub enum Item {
    Source,
    Address,
}

// A whole list: its servers, the lines of its sources, and where reports go.
#[derive(Clone, Copy)]
struct Listing<'a> {
    servers: Servers<'a>,
    sources: &'a [u8],
    reports: &'a [u8],
}

// A number in decimal: its digits end with the text, and start at this index of it.
#[derive(Clone, Copy)]
struct Digits {
    text: [u8; 10],
    from: usize,
}
