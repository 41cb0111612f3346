// Server lists in the public format (draft 19, section 8.3), read into the records of a server list. The text is walked
// where it lies.
#![tactic(auto)]

mod addresses;
mod elements;
mod reading;
mod seeing;
mod surveys;
mod tallies;
mod texts;
mod values;
mod versions;

pub use elements::{first_item, next_item};
use json_values::{DEPTH, Found};
pub use reading::read_servers;
use refusal::Refusal;
pub use surveys::survey_of;
pub use values::{array_place, is_word, string_place};

// How deep values may nest in the outermost object,
const IN_ROOT: usize = DEPTH - 1;

// in the list of servers there,
pub const IN_SERVERS: usize = DEPTH - 2;

// in a server object,
pub const IN_SERVER: usize = DEPTH - 3;

// in its list of addresses,
pub const IN_ADDRESSES: usize = DEPTH - 4;

// and in an address object.
pub const IN_ADDRESS: usize = DEPTH - 5;

// The longest text of an address or a URL that is read.
const LONGEST: usize = 2048;

// What a text is looked at for: the address of a server, or a URL.
#[derive(Clone, Copy)]
enum Sort {
    Place,
    Url,
}

// What is seen of a good address object: where it ends, if it does.
#[derive(Clone, Copy)]
struct SeenAddress {
    end: Option<usize>,
}

// The members of a server object, by what is found of each.
#[derive(Clone, Copy)]
struct ServerParts {
    name: Found,
    version: Found,
    scheme: Found,
    key: Found,
    addresses: Found,
}

// What is seen of a good server object: whether we can ask the server, whether it has too many addresses, and where the
// object ends, if it does. Each is a fact of its own: beside neither of the first two stands a value that it speaks of.
#[derive(Clone, Copy)]
struct Seen {
    asks: bool,
    crowded: bool,
    end: Option<usize>,
}

// What is counted of good server objects: how many there are, how many can be asked, whether one has too many addresses
// (of which nothing else is kept), and the places of those that can be asked.
// places: an array beside its count, since the library has no heap.
#[derive(Clone, Copy)]
struct Tally {
    count: usize,
    asked: usize,
    crowded: bool,
    places: [usize; 64],
}

// What a list says that is not refused: how many servers can be asked, at which places, and how many are passed over;
// where it says its sources, and where reports go.
// places: an array beside its count, since the library has no heap.
#[derive(Clone, Copy)]
pub struct Survey {
    pub asked: usize,
    pub passed: usize,
    pub places: [usize; 64],
    pub sources: Found,
    pub reports: Found,
}
