// JSON texts (RFC 8259), read where they lie: values, skipped over, and the members of objects, by name. A reader is
// given the whole text and a place in it, and answers the place past what it read. A list is asked for at its bracket, so
// that the place lies inside the text: the caller has just read the byte there, which no type of a place would tell.
#![tactic(auto)]

mod names;
mod objects;
mod values;

use json_tokens::Step;
pub use names::{find, is_named};
pub use objects::members;
pub use values::{is_text, item, member, value};

// How deep values may nest in objects and in arrays, the outermost counted (request P7).
pub const DEPTH: usize = 16;

// How often an object has a member of a name: once, with the place of its value; never; more than once. Three ways: a
// list of servers may lack some members, and may have none of them twice, and an Option would not tell which it is.
#[derive(Clone, Copy)]
pub enum Found {
    At(usize),
    Nothing,
    Twice,
}

// Where an object ends, and what it has under each of five names.
#[derive(Clone, Copy)]
pub struct Object {
    pub end: Option<usize>,
    pub a: Found,
    pub b: Found,
    pub c: Found,
    pub d: Found,
    pub e: Found,
}

// How many of the members so far have a name, and where the last one's value is. Numbers, and no Found: what goes round
// in a loop is copied at each turn, and an enum is copied with the bytes between its parts.
#[derive(Clone, Copy)]
struct Seen {
    n: usize,
    v: usize,
}

// The same of five names.
#[derive(Clone, Copy)]
struct Five {
    a: Seen,
    b: Seen,
    c: Seen,
    d: Seen,
    e: Seen,
}

// A turn of an object: how many letters the member's name has, and the place of its value.
#[derive(Clone, Copy)]
struct Turn {
    letters: usize,
    value: usize,
    step: Step,
}
