// Members of an object by name (RFC 8259, sections 4 and 8.3).
ghost use Rattle.std.specs.Prelude.{◌≡◌, true, ◌+◌, ◌<◌, length};
ghost use Rattle.json_values.specs.Members.{named, value_place, answer_of, count_of, found_of};

use super::Found;
use super::values::member;
use json_strings::{holds, is_unescaped, string};
use json_tokens::{Step, blanks, byte, colon};

// Whether the member at a place has the name. That it has another is mostly seen by its first letter.
pub fn is_named(s: &[u8], k: usize, w: &[u8]) -> bool
    ensures { result ≡ named s.now w.now k }
{
    let b = byte(s, k);
    if b != b'"' {
        return false;
    }
    let x = byte(s, k + 1);
    if (x != byte(w, 0)) & is_unescaped(x) {
        return false;
    }
    holds(s, k + 1, w)
}

fn value_place(s: &[u8], k: usize) -> usize
    ensures { result ≡ value_place s.now k }
{
    string(s, k).and_then(|e| colon(s, e)).unwrap_or(0)
}

// One, or more.
pub fn one_more(n: usize) -> usize
    ensures { result ≡ count_of true n }
{
    if n == 0 { 1 } else { 2 }
}

pub fn answer(n: usize, v: usize) -> Found
    ensures { result ≡ answer_of n v }
{
    if n == 0 {
        return Found::Nothing;
    }
    if n == 1 { Found::At(v) } else { Found::Twice }
}

// The member of a name of the object at a place, whose values are nested at most so deep.
pub fn find(s: &[u8], at: usize, depth: usize, w: &[u8]) -> Found
    requires { at < length s.now }
    ensures { result ≡ found_of s.now w.now depth at }
{
    let first = blanks(s, at + 1);
    let b = byte(s, first);
    if b == b'}' {
        return Found::Nothing;
    }
    let mut k = first;
    let mut n = 0;
    let mut v = 0;
    // loop: a member is looked at before its turn says whether another follows.
    loop {
        if is_named(s, k, w) {
            n = one_more(n);
            v = value_place(s, k);
        }
        let Step::More(j) = member(s, k, depth) else {
            return answer(n, v);
        };
        k = j;
    }
}
