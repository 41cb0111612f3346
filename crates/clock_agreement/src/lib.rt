// Where servers agree (Marzullo 1984): the least and the greatest point that lies in the spans of enough of them, and
// who is suspect.
#![tactic(auto)]

mod agreeing;
mod counting;
mod gathering;

pub use agreeing::agree_on;
use refusal::Refusal;

// What the servers agree on: the two ends, in microseconds since 1970, and how many servers were counted. `agree` and
// `suspects` are sets of these, in which server s counts 2^s: those whose span meets what lies between the ends, and
// those whose span does not.
#[derive(Clone, Copy)]
pub struct Agreed {
    pub from: u64,
    pub to: u64,
    pub counted: u64,
    pub agree: u64,
    pub suspects: u64,
}
