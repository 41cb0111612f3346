// What a server's keys sign (request P1; draft 19, 5.2.5 and 5.2.6): SREP, which the delegated key signs; DELE, which
// the long-term key signs, and CERT, which holds it with that signature. Each writer writes at the front of the lent
// buffer, where later bytes stay, or nothing. `put_srep`, `put_words` and `radius_code` are for the crate above.
#![tactic(auto)]

mod delegating;
mod signing;
mod wording;

pub use delegating::{write_cert, write_dele};
pub use signing::{put_srep, radius_code, write_srep};
pub use wording::put_words;
