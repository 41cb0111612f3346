// The strings of JSON texts (RFC 8259, section 7), read where they lie: their characters one after the other, the place
// past a string, and whether it holds a word.
// Several readers ask that a place lies within the text, so that the next places are numbers. A place is a bare number all
// the same: each step makes another of it, and a type for it would be taken apart and proved anew at each.
#![tactic(auto)]

mod escapes;
mod letters;
mod strings;
mod unescaped;
mod wides;

pub use escapes::latin;
pub use strings::{holds, measured, string, unit_of};
pub use unescaped::{is_unescaped, unescaped_run};
pub use wides::hex_code;

// What stands at a place within a string: a character by its number, with the place past it; the closing quote; or what
// no string may hold. Three ways, since a reader of what a string holds ends at either of the last two, and a reader of
// the string itself tells them apart.
#[derive(Clone, Copy)]
pub enum Unit {
    Code(u32, usize),
    Close(usize),
    Ill,
}

// Where a string ends, 0 where it does not, and how many characters it has. A number: with an Option in its place the
// members of objects took half as long again, as an enum in a struct is copied with the bytes between its parts.
#[derive(Clone, Copy)]
pub struct Extent {
    pub past: usize,
    pub letters: usize,
}
