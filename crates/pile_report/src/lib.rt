// Reports and the cutter (document 01, "Piles and reports"): whether a pile is a report, and the shortest run of a pile
// that convicts by itself. Both take any bytes. What else is public is for the crates above, which have asked whether
// the pile is good.
#![tactic(auto)]

mod checking;
mod cutting;
mod gathering;
mod linking;

pub use checking::{check_report, said_by};
pub use cutting::{cut_run, put_run, run_by, run_in};
pub use gathering::verdicts_by;
use refusal::Refusal;

// What is said of a pile: the two records that contradict, where it is a report; or why it is none, and the place of
// the record that is to blame, which is 0 where none is.
pub type Report = Result<(usize, usize), (Refusal, usize)>;
