// The values of members, by what was found.
ghost use Rattle.std.specs.Prelude.{◌≡◌, ◌+◌};
ghost use Rattle.report_read.specs.Entry.{string_of, list_of, size_in};
ghost use Rattle.list_read.specs.Server.{is_word, key_by};

use json_base64::size_of;
use json_strings::holds;
use json_tokens::byte;
use json_values::Found;

// The characters of the string that a member holds.
pub fn string_place(s: &[u8], f: Found) -> Option<usize>
    ensures { result ≡ string_of s.now f }
{
    match f {
        Found::At(v) => {
            let b = byte(s, v);
            if b == b'"' { Some(v + 1) } else { None }
        }
        Found::Nothing => None,
        Found::Twice => None,
    }
}

// The list that a member holds.
pub fn array_place(s: &[u8], f: Found) -> Option<usize>
    ensures { result ≡ list_of s.now f }
{
    match f {
        Found::At(v) => {
            let b = byte(s, v);
            if b == b'[' { Some(v) } else { None }
        }
        Found::Nothing => None,
        Found::Twice => None,
    }
}

// A string is the word.
pub fn is_word(s: &[u8], x: Option<usize>, w: &[u8]) -> bool
    ensures { result ≡ is_word s.now x w.now }
{
    match x {
        Some(p) => holds(s, p, w),
        None => w.len() == 0,
    }
}

// How many bytes a member stands for, if it is base64.
pub fn key_size(s: &[u8], f: Found) -> Option<usize>
    ensures { result ≡ size_in (key_by s.now f) }
{
    size_of(s, string_place(s, f)?)
}
