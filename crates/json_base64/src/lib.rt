// Base64 in the strings of a JSON text, read where it lies: after unescaping, character by character, since a writer of
// JSON may escape any letter, and some escape each `/`. Letters that stand unescaped, as most do, are read together.
// That a string's bytes fit a buffer is asked by each writer: it is a fact of both, and no type of one could have it.
#![tactic(auto)]

mod decoding;
mod groups;
mod letters;
mod sizing;

use base64_strict::Group;
pub use decoding::{decode, fill};
pub use sizing::size_of;

// Four characters as a group, with the place past them, or the string's end. Where None stands in its place, there are
// fewer than four, or they are no group.
#[derive(Clone, Copy)]
pub enum Quad {
    Four(Group, usize),
    End,
}
