// Reports in the public format in one call, from text to text (request P7); and with no answers lent (request P11).
#![tactic(auto)]

mod cutting;
mod publishing;

pub use cutting::{cut_signed_text, cut_text};
pub use publishing::write_signed_report;
use refusal::Refusal;

// The places of the first and the last record of the run, and how long its text is; or why there is none.
pub type Forwarded = Result<(usize, usize, usize), Refusal>;
