// Integers, as they are written: a server's version.
ghost use Rattle.std.specs.Prelude.{◌≡◌, true};
ghost use Rattle.laws.specs.Ascii.{ascii};
ghost use Rattle.json_tokens.specs.Number.{number_at};
ghost use Rattle.json_tokens.specs.Scan.{digit};
ghost use Rattle.json_strings.specs.Text.{same_list};
ghost use Rattle.json_text.specs.Octets.{plain};
ghost use Rattle.list_read.specs.Server.{is_mark, unmarked, is_some, up_to, version_by};

use json_tokens::{byte, number};
use json_values::Found;

// The first byte of a fraction or of an exponent.
#[tactic(auto, unfolding(crate::specs::Server::is_mark, laws::specs::Pick::either))]
fn is_mark(b: u8) -> bool
    ensures { result ≡ is_mark b }
{
    matches!(b, b'.' | b'e' | b'E')
}

// Neither a fraction nor an exponent begins in the bytes.
fn no_mark(x: &[u8]) -> bool
    ensures { result ≡ unmarked x.now }
{
    !x.iter().any(|b| is_mark(*b))
}

// The value at a place is an integer.
fn integer_at(s: &[u8], v: usize) -> bool
    ensures { result ≡ is_some (up_to s.now v (number_at s.now v)) }
{
    let Some(e) = number(s, v) else {
        return false;
    };
    no_mark(&s[v..e])
}

// A member is an integer. As `matches!` with the test for a guard neither this nor `is_ours` is proved by itself: what
// each of its arms answers stays open.
pub fn is_integer(s: &[u8], f: Found) -> bool
    ensures { result ≡ is_some (version_by s.now f) }
{
    match f {
        Found::At(v) => integer_at(s, v),
        Found::Nothing => false,
        Found::Twice => false,
    }
}

// The library's test by the name of the definition: called as it is in `ours_at`, it is not proved to be `digit`.
#[tactic(auto, unfolding(laws::specs::Pick::both))]
fn is_digit(b: u8) -> bool
    ensures { result ≡ digit b }
{
    b.is_ascii_digit()
}

// The bytes are the digit 1.
fn is_one(x: &[u8]) -> bool
    ensures { result ≡ same_list x.now (ascii "1") }
{
    if x.len() != 1 {
        return false;
    }
    x[0] == b'1'
}

// The value at a place is the version that this library speaks. Most others are told by their first two bytes, lest a
// long one be read to its end.
fn ours_at(s: &[u8], v: usize) -> bool
    ensures { result ≡ same_list (plain (up_to s.now v (number_at s.now v))) (ascii "1") }
{
    let b = byte(s, v);
    if b != b'1' {
        return false;
    }
    let c = byte(s, v + 1);
    if is_digit(c) {
        return false;
    }
    let Some(e) = number(s, v) else {
        return false;
    };
    is_one(&s[v..e])
}

// A member is that version.
pub fn is_ours(s: &[u8], f: Found) -> bool
    ensures { result ≡ same_list (plain (version_by s.now f)) (ascii "1") }
{
    match f {
        Found::At(v) => ours_at(s, v),
        Found::Nothing => false,
        Found::Twice => false,
    }
}
