// The checks of piles that need no answers (request P11): the signatures of each record are verified by our own
// Ed25519, that of CERT under the key that stands in the record. Each check answers what the one with lent answers does
// when it is given these. All take any bytes. Signatures are looked at last, and only where nothing cheaper refuses: a
// damaged record costs no verification.
#![tactic(auto)]

mod cutting;
mod judging;
mod listing;
mod reporting;

pub use cutting::{cut_signed_run, signed_run};
pub use judging::judge_signed;
pub use listing::{answer_byte, pile_answers};
pub use reporting::check_signed_report;
