// Piles (document 01, "Piles and reports"): records of 4,096 bytes, what each of them says, and whether it is linked to
// the one before.
// `pile_code`, `judge`, `linked` and `first_rand_zero` take any bytes and any place.
// `verdict_at` and the parts of a record are for the crates above, which have asked whether the pile is good.
#![tactic(auto)]

mod damage;
mod judging;
pub mod layout;
mod linking;
mod piles;
mod records;

use check_response::Verdict;
pub use judging::{judge, judged, refused, verdict_at};
pub use layout::RECORD;
pub use linking::{first_rand_zero, linked};
pub use piles::{length_bad, pile_code};
pub use records::{RecordBytes, record_at};

// What is said of one record: its place, from 0, its window or its refusal, and the delegated key, 32 zero bytes on a
// refusal.
#[derive(Clone, Copy)]
pub struct Judgement {
    pub place: usize,
    pub verdict: Verdict,
    pub pubk: [u8; 32],
}
