// Small answers as numbers, and numbers as answers.
ghost use Rattle.std.specs.Prelude.{◌≡◌, eqb};
ghost use Rattle.c_packets.specs.Reading.{flag_of};

use refusal::Refusal;

// Document 01's number of a refusal. No `From`: it would stand in `refusal`, which every crate uses, while C alone is told
// the number as a word of its own.
pub fn number(why: Refusal) -> u32
    ensures { result ≡ why.code }
{
    why.code as u32
}

// 1 for yes, 0 for no: the library's conversion, whose contract here is `flag_of`, the word of the definitions for it.
pub fn flag(b: bool) -> u32
    ensures { result ≡ flag_of b }
{
    u32::from(b)
}

// Only 1 is a yes, whatever else a host's library answers.
pub fn yes(answer: u32) -> bool
    ensures { result ≡ eqb answer 1 }
{
    answer == 1
}
