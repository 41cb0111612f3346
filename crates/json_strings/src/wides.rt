// Runs of characters that are more than a byte, or that are escaped by four digits. They are stepped over by their sizes:
// no number is made of them.
ghost use Rattle.std.specs.Prelude.{◌≡◌, ◌+◌, ◌≤◌, length};
ghost use Rattle.json_tokens.specs.Walk.{walked};
ghost use Rattle.json_strings.specs.Text.{unit_step};
ghost use Rattle.json_strings.specs.Sizes.{is_two, is_three, is_four, is_hex, is_quad, is_escape};
ghost use Rattle.json_strings.specs.Sizes.{quad_of, Steps, Hexed};

use super::escapes::nibble_of;
use super::letters::{is_second, is_tail};

// The bytes are a character of two, of three, of four.
fn is_two(a: u8, b: u8) -> bool
    ensures { result ≡ is_two a b }
{
    (0xC2 <= a) & (a < 0xE0) & is_tail(b)
}

fn is_three(a: u8, b: u8, c: u8) -> bool
    ensures { result ≡ is_three a b c }
{
    (0xE0 <= a) & (a < 0xF0) & is_second(a, b) & is_tail(c)
}

fn is_four(a: u8, b: u8, c: u8, d: u8) -> bool
    ensures { result ≡ is_four a b c d }
{
    (0xF0 <= a) & (a < 0xF5) & is_second(a, b) & is_tail(c) & is_tail(d)
}

// Digits in base 16, one and four. With no way out at the first range that fits, so that four are tested at once.
fn is_hex(b: u8) -> bool
    ensures { result ≡ is_hex b }
{
    ((b'0' <= b) & (b <= b'9')) | ((b'a' <= b) & (b <= b'f')) | ((b'A' <= b) & (b <= b'F'))
}

fn is_quad(a: u8, b: u8, c: u8, d: u8) -> bool
    ensures { result ≡ is_quad a b c d }
{
    is_hex(a) & is_hex(b) & is_hex(c) & is_hex(d)
}

// A backslash and the letter u.
fn is_escape(a: u8, b: u8) -> bool
    ensures { result ≡ is_escape a b }
{
    (a == b'\\') & (b == b'u')
}

// The number of four digits.
fn quad(a: u8, b: u8, c: u8, d: u8) -> u32
    ensures { result ≡ quad_of a b c d }
{
    4096 * nibble_of(a) + 256 * nibble_of(b) + 16 * nibble_of(c) + nibble_of(d)
}

// The number that is escaped by four digits at a place. None also where the text nearly ends.
pub fn hex_code(s: &[u8], at: usize) -> Option<u32>
    ensures { Hexed s.now at result }
{
    if s.len() < 6 {
        return None;
    }
    if s.len() - 6 < at {
        return None;
    }
    if !is_escape(s[at], s[at + 1]) {
        return None;
    }
    let a = s[at + 2];
    let b = s[at + 3];
    let c = s[at + 4];
    let d = s[at + 5];
    if is_quad(a, b, c, d) {
        Some(quad(a, b, c, d))
    } else {
        None
    }
}

// How many bytes the character at a place takes that is escaped by four digits.
fn hex_size(s: &[u8], at: usize) -> Option<usize>
    requires { at + 6 ≤ length s.now }
    ensures { Steps s.now at result }
{
    if is_escape(s[at], s[at + 1]) & is_quad(s[at + 2], s[at + 3], s[at + 4], s[at + 5]) {
        Some(6)
    } else {
        None
    }
}

// The same of one that is more than a byte.
fn byte_size(s: &[u8], at: usize) -> Option<usize>
    requires { at + 6 ≤ length s.now }
    ensures { Steps s.now at result }
{
    let a = s[at];
    let b = s[at + 1];
    if is_two(a, b) {
        return Some(2);
    }
    let c = s[at + 2];
    if is_three(a, b, c) {
        return Some(3);
    }
    if is_four(a, b, c, s[at + 3]) {
        Some(4)
    } else {
        None
    }
}

// The same of either. None also where the text nearly ends.
fn wide_size(s: &[u8], at: usize) -> Option<usize>
    ensures { Steps s.now at result }
{
    if s.len() < 6 {
        return None;
    }
    if s.len() - 6 < at {
        return None;
    }
    if s[at] < 0x80 {
        hex_size(s, at)
    } else {
        byte_size(s, at)
    }
}

// Past such characters.
pub fn wide_run(s: &[u8], at: usize) -> usize
    ensures { (walked (length s.now) (unit_step s.now) result
        ≡ walked (length s.now) (unit_step s.now) at)
        × (at ≤ result) }
{
    let mut k = at;
    while let Some(n) = wide_size(s, k) {
        k += n;
    }
    k
}
