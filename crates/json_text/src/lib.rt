// The texts that the strings of a JSON text hold, as octets: characters stand there as UTF-8 or are escaped, one above
// U+FFFF as two surrogates (RFC 8259, section 7). A surrogate that is alone is no character, and such a string no text.
#![tactic(auto)]

mod bare;
mod characters;
mod surrogates;
mod texts;
mod utf8;

pub use bare::is_unicode;
pub use texts::{fill, put_text, text_size};

// A character, with the place past it; the string's end; or a surrogate that is alone. Three ways, which both readers tell
// apart: a Result of an Option of a pair would say no more.
#[derive(Clone, Copy)]
pub enum Letter {
    Is(u32, usize),
    Stop,
    Lone,
}
