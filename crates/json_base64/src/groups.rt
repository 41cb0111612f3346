// The characters of a string, in groups of four.
ghost use Rattle.std.specs.Prelude.{◌≡◌, true, ◌<◌, length, Some};
ghost use Rattle.json_strings.specs.Text.{content_at};
ghost use Rattle.json_base64.specs.Sized.{CharOf, QuadOf, Lettered, empty};

use super::Quad;
use super::letters::four;
use base64_strict::Group;
use json_strings::{Unit, is_unescaped, latin};
use json_tokens::byte;

// Whether the string ends at a place.
pub fn at_end(s: &[u8], k: usize) -> bool
    ensures { result ≡ empty (content_at s.now k) }
{
    match json_strings::unit_of(s, k) {
        Unit::Code(_, _) => false,
        Unit::Close(_) => true,
        Unit::Ill => true,
    }
}

// The character at a place.
fn letter_at(s: &[u8], k: usize) -> Option<(u32, usize)>
    ensures { CharOf s.now k result }
{
    match json_strings::unit_of(s, k) {
        Unit::Code(c, j) => Some((c, j)),
        Unit::Close(_) => None,
        Unit::Ill => None,
    }
}

// The four characters at a place, one by one.
fn quad_singly(s: &[u8], k: usize) -> Option<Quad>
    ensures { QuadOf s.now k result }
{
    let Some((a, i)) = letter_at(s, k) else {
        return Some(Quad::End);
    };
    let (b, j) = letter_at(s, i)?;
    let (c, m) = letter_at(s, j)?;
    let (d, n) = letter_at(s, m)?;
    Some(Quad::Four(base64_strict::group_of(a, b, c, d)?, n))
}

// The four letters at a place.
fn quad_together(s: &[u8], k: usize) -> Quad
    requires { Lettered s.now k 1 }
    ensures { QuadOf s.now k (Some result) }
{
    let (x, y, z) = base64_strict::three_of(s[k], s[k + 1], s[k + 2], s[k + 3]);
    Quad::Four(Group::Three(x, y, z), k + 4)
}

// The four characters at a place, each written as \u00 and two digits, or one by one where one is not.
fn quad_escaped(s: &[u8], k: usize) -> Option<Quad>
    requires { k < length s.now }
    ensures { QuadOf s.now k result }
{
    let a = latin(s, k);
    let b = latin(s, k + 6);
    let c = latin(s, k + 12);
    let d = latin(s, k + 18);
    if (a == 256) | (b == 256) | (c == 256) | (d == 256) {
        return quad_singly(s, k);
    }
    Some(Quad::Four(base64_strict::group_of(a, b, c, d)?, k + 24))
}

// The four characters at a place, as with pads at a string's end: together where each stands for itself, else one by
// one.
fn quad_plain(s: &[u8], k: usize) -> Option<Quad>
    requires { k < length s.now }
    ensures { QuadOf s.now k result }
{
    let a = byte(s, k);
    let b = byte(s, k + 1);
    let c = byte(s, k + 2);
    let d = byte(s, k + 3);
    if is_unescaped(a) & is_unescaped(b) & is_unescaped(c) & is_unescaped(d) {
        let g = base64_strict::group_of(a as u32, b as u32, c as u32, d as u32)?;
        return Some(Quad::Four(g, k + 4));
    }
    quad_singly(s, k)
}

// The four characters at a place.
pub fn quad_of(s: &[u8], k: usize) -> Option<Quad>
    ensures { QuadOf s.now k result }
{
    let a = byte(s, k);
    if a == b'"' {
        return Some(Quad::End);
    }
    if a == b'\\' {
        return quad_escaped(s, k);
    }
    if four(s, k) {
        return Some(quad_together(s, k));
    }
    if is_unescaped(a) {
        quad_plain(s, k)
    } else {
        quad_singly(s, k)
    }
}
