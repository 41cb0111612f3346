// Reports written in the public format (draft 19, section 8.4.1; request P7), from the records of a pile.
#![tactic(auto)]

mod listing;
mod pieces;
mod publishing;
mod sizing;

pub use publishing::{put_report, write_report};
use refusal::Refusal;

// The lengths of {"responses":[ before the first object,
const OPENING: usize = 14;

// and of ]} behind the last.
const CLOSING: usize = 2;

// The length of the longest text there can be: of 16 records whose packets have 2,000 bytes each.
pub const LONGEST: usize = 87_609;

// How long the text is that stands at the front of the buffer; or why there is none, and the place of the record that
// is to blame, as the check of a report says it, 0 where none is.
pub type Published = Result<usize, (Refusal, usize)>;
