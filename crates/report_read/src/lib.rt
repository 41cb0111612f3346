// Reports in the public format (draft 19, section 8.4.1; request P7), read into the records of a pile.
// The text is walked once, where it lies: of the first 16 entries the places of their strings are kept, and the records
// are written from them.
#![tactic(auto)]

mod entries;
mod lists;
mod reading;
mod records;
mod reports;

use json_values::DEPTH;
pub use reading::read_report;
use refusal::Refusal;

// How deep values may nest in the outermost object,
const IN_REPORT: usize = DEPTH - 1;

// and in a response object, which stands in a list there.
const IN_ENTRY: usize = DEPTH - 3;

// An entry: its place, those of the characters of its strings, and how many bytes its packets have.
#[derive(Clone, Copy)]
struct Spot {
    at: usize,
    key: usize,
    rand: usize,
    request: usize,
    response: usize,
    asked: usize,
    said: usize,
}

// What is kept of a list of entries. 24 is judged of all of them first, and so what 25 asks is kept beside the first 16:
// how many there are, past the 16th too, and whether a packet is too long.
#[derive(Clone, Copy)]
struct Kept {
    n: usize,
    big: bool,
    // 16 and no more: memory is fixed.
    spots: [Spot; 16],
}
