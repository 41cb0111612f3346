// The tokens of JSON texts (RFC 8259, sections 2 and 6) but for strings: blanks, colons, commas, brackets and numbers.
// A reader is given the whole text and a place in it, and answers the place past what it read, or None where no such
// token stands there. The byte past the end is 0, and no token has the byte 0, so that no reader asks for the end.
#![tactic(auto)]

mod numbers;
mod scan;

pub use numbers::{lone_digit, number};
pub use scan::{after_item, blanks, byte, colon, past_while};

// What one turn of a list answers: the place of the next turn, the place past the list's end, or that it is wrong. Three
// ways, and each caller tells them apart: an Option of the other two would nest one match in another.
#[derive(Clone, Copy)]
pub enum Step {
    More(usize),
    End(usize),
    Wrong,
}
