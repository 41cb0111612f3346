// Server lists: records of 64 bytes, long-term key and SRV value, no header. The owner's list is searched before the
// shipped one.
// `find_server` hands the record back as a part of the list that holds it, and an empty part on refusal; `find_code`
// tells why.
#![tactic(auto)]

mod lookup;
mod records;

pub use lookup::{find_code, find_server, search};

// Where a server stands: the list that holds it, and the number of its record there, from 0.
#[derive(Clone, Copy)]
pub enum Where {
    Owner(usize),
    Shipped(usize),
}
