// Numbers (RFC 8259, section 6).
ghost use Rattle.std.specs.Prelude.{◌≡◌, ◌+◌};
ghost use Rattle.json_tokens.specs.Number.{some_digits, past_minus, past_sign, whole_at, fraction_at, signed_at, exponent_at};
ghost use Rattle.json_tokens.specs.Number.{integer_at, number_at, lone_digit};

use super::scan::{byte, digits};

fn some_digits(s: &[u8], at: usize) -> Option<usize>
    ensures { result ≡ some_digits s.now at }
{
    let e = digits(s, at);
    if e == at { None } else { Some(e) }
}

fn minus(s: &[u8], at: usize) -> usize
    ensures { result ≡ past_minus s.now at }
{
    let b = byte(s, at);
    if b == b'-' { at + 1 } else { at }
}

fn sign(s: &[u8], at: usize) -> usize
    ensures { result ≡ past_sign s.now at }
{
    match byte(s, at) {
        b'+' | b'-' => at + 1,
        _ => at,
    }
}

fn whole(s: &[u8], at: usize) -> Option<usize>
    ensures { result ≡ whole_at s.now at }
{
    let b = byte(s, at);
    if b == b'0' {
        Some(at + 1)
    } else {
        some_digits(s, at)
    }
}

fn fraction(s: &[u8], at: usize) -> Option<usize>
    ensures { result ≡ fraction_at s.now at }
{
    let b = byte(s, at);
    if b == b'.' {
        some_digits(s, at + 1)
    } else {
        Some(at)
    }
}

fn signed(s: &[u8], at: usize) -> Option<usize>
    ensures { result ≡ signed_at s.now at }
{
    some_digits(s, sign(s, at))
}

fn exponent(s: &[u8], at: usize) -> Option<usize>
    ensures { result ≡ exponent_at s.now at }
{
    match byte(s, at) {
        b'e' | b'E' => signed(s, at + 1),
        _ => Some(at),
    }
}

fn integer(s: &[u8], at: usize) -> Option<usize>
    ensures { result ≡ integer_at s.now at }
{
    whole(s, minus(s, at))
}

// Past a number. It finds where one ends, and makes none: no reader asks what it is.
pub fn number(s: &[u8], at: usize) -> Option<usize>
    ensures { result ≡ number_at s.now at }
{
    let e = integer(s, at)?;
    let f = fraction(s, e)?;
    exponent(s, f)
}

// Whether one digit is the whole number, with a comma or a closing bracket right behind it: a short way for the shortest
// of values.
pub fn lone_digit(s: &[u8], at: usize) -> bool
    ensures { result ≡ lone_digit s.now at }
{
    byte(s, at).is_ascii_digit() && matches!(byte(s, at + 1), b',' | b']' | b'}')
}
