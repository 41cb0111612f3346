// Values (RFC 8259, sections 3 to 5), and a whole text. An array and an object read values, whose depth falls.
ghost use Rattle.std.specs.Prelude.{◌≡◌, ◌+◌, ◌≤◌, ◌<◌, length};
ghost use Rattle.json_values.specs.Value.{literal_at, plain_at, value_at, array_at, object_at, item_step, member_step};
ghost use Rattle.json_values.specs.Value.{is_text};
ghost use Rattle.json_values.specs.Facts.{GoesForth, ListedBy};

use super::DEPTH;
use json_strings::string;
use json_tokens::{Step, after_item, blanks, byte, colon, lone_digit, number};

fn literal(s: &[u8], at: usize, w: &[u8]) -> Option<usize>
    requires { (at ≤ length s.now) × (length w.now ≤ 8) }
    ensures { result ≡ literal_at w.now s.now at }
{
    if s[at..].starts_with(w) {
        Some(at + w.len())
    } else {
        None
    }
}

// The same answer, made anew. To hand on what a call answered copies it with the bytes between its parts, and waits for
// them, at every value.
fn again(r: Option<usize>) -> Option<usize>
    ensures { result ≡ r }
{
    match r {
        Some(e) => Some(e),
        None => None,
    }
}

// A value that holds no other. A string that is empty ends at once.
fn plain(s: &[u8], at: usize) -> Option<usize>
    ensures { result ≡ plain_at s.now at }
{
    let b = byte(s, at);
    if b == b'"' {
        if byte(s, at + 1) == b'"' {
            return Some(at + 2);
        }
        return again(string(s, at));
    }
    if b == b't' {
        return literal(s, at, b"true");
    }
    if b == b'f' {
        return literal(s, at, b"false");
    }
    if b == b'n' {
        return literal(s, at, b"null");
    }
    if lone_digit(s, at) {
        Some(at + 1)
    } else {
        number(s, at)
    }
}

// An array or an object, at its bracket: by its turns, unless the one that closes it stands next.
fn list<F: Fn(usize) -> Step>(s: &[u8], at: usize, close: u8, turn: F) -> Option<usize>
    requires callable { F.IsAlwaysCallable turn }
    requires inside { at < length s.now }
    requires some { 0 < close }
    requires forth { GoesForth (F.post turn) s.now }
    ensures { ListedBy (F.post turn) s.now close at result }
{
    let first = blanks(s, at + 1);
    if byte(s, first) == close {
        return Some(first + 1);
    }
    let mut k = first;
    // loop: the turn that ends the list is the one that says where.
    loop {
        match turn(k) {
            Step::More(n) => {
                k = n;
            }
            Step::End(e) => {
                return Some(e);
            }
            Step::Wrong => {
                return None;
            }
        }
    }
}

// A value, with at most so many brackets around anything in it.
#[cycle(array_item_member_object_value)]
pub fn value(s: &[u8], at: usize, depth: usize) -> Option<usize>
    ensures { result ≡ value_at s.now depth at }
{
    let b = byte(s, at);
    if b == b'{' {
        return object(s, at, depth);
    }
    if b == b'[' {
        array(s, at, depth)
    } else {
        again(plain(s, at))
    }
}

// One turn of an array.
#[cycle(array_item_member_object_value)]
pub fn item(s: &[u8], at: usize, depth: usize) -> Step
    ensures { result ≡ item_step s.now (value_at s.now depth) at }
{
    let Some(e) = value(s, at, depth) else {
        return Step::Wrong;
    };
    after_item(s, e, b']')
}

// An array, at its bracket. It and `object` are two functions, as document 01 names them: each is `list` with its turn.
#[cycle(array_item_member_object_value)]
fn array(s: &[u8], at: usize, depth: usize) -> Option<usize>
    requires { at < length s.now }
    ensures { result ≡ array_at s.now depth at }
{
    let inner = depth.checked_sub(1)?;
    list(
        s,
        at,
        b']',
        |k|
            ensures { result ≡ item_step s.entry.now (value_at s.entry.now inner) k }
        { item(s, k, inner) },
    )
}

// One turn of an object.
#[cycle(array_item_member_object_value)]
pub fn member(s: &[u8], at: usize, depth: usize) -> Step
    ensures { result ≡ member_step s.now (value_at s.now depth) at }
{
    let Some(e) = string(s, at) else {
        return Step::Wrong;
    };
    let Some(v) = colon(s, e) else {
        return Step::Wrong;
    };
    let Some(f) = value(s, v, depth) else {
        return Step::Wrong;
    };
    after_item(s, f, b'}')
}

// An object, at its brace.
#[cycle(array_item_member_object_value)]
fn object(s: &[u8], at: usize, depth: usize) -> Option<usize>
    requires { at < length s.now }
    ensures { result ≡ object_at s.now depth at }
{
    let inner = depth.checked_sub(1)?;
    list(
        s,
        at,
        b'}',
        |k|
            ensures { result ≡ member_step s.entry.now (value_at s.entry.now inner) k }
        { member(s, k, inner) },
    )
}

// The bytes are a JSON text, nested no deeper than is allowed.
pub fn is_text(s: &[u8]) -> bool
    ensures { result ≡ is_text s.now }
{
    let Some(e) = value(s, blanks(s, 0), DEPTH) else {
        return false;
    };
    blanks(s, e) == s.len()
}
