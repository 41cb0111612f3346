// The characters of a string, one after the other.
ghost use Rattle.std.specs.Prelude.{◌≡◌, true};
ghost use Rattle.json_strings.specs.Text.{unit_at};
ghost use Rattle.json_text.specs.Octets.{is_high};
ghost use Rattle.json_text.specs.Facts.{BegunBy, LetterOf};

use super::Letter;
use super::surrogates::{is_high, is_low, pair};
use json_strings::{Unit, hex_code, unit_of};

// What stands at a place within a string. Four digits, of which a string of escapes consists, come first.
fn unit_at(s: &[u8], at: usize) -> Unit
    ensures { result ≡ unit_at s.now at }
{
    match hex_code(s, at) {
        Some(c) => Unit::Code(c, at + 6),
        None => unit_of(s, at),
    }
}

// The character whose first surrogate is c, and whose second stands at j.
fn second(s: &[u8], c: u32, j: usize) -> Letter
    requires { is_high c ≡ true }
    ensures { BegunBy s.now c j result }
{
    match unit_at(s, j) {
        Unit::Code(d, m) => {
            if is_low(d) {
                Letter::Is(pair(c, d), m)
            } else {
                Letter::Lone
            }
        }
        Unit::Close(_) => Letter::Lone,
        Unit::Ill => Letter::Lone,
    }
}

// The character that begins with the number c; j is past that.
fn begun(s: &[u8], c: u32, j: usize) -> Letter
    ensures { BegunBy s.now c j result }
{
    if is_high(c) {
        return second(s, c, j);
    }
    if is_low(c) {
        Letter::Lone
    } else {
        Letter::Is(c, j)
    }
}

// The character at a place.
pub fn letter_at(s: &[u8], k: usize) -> Letter
    ensures { LetterOf s.now k result }
{
    match unit_at(s, k) {
        Unit::Code(c, j) => begun(s, c, j),
        Unit::Close(_) => Letter::Stop,
        Unit::Ill => Letter::Stop,
    }
}
