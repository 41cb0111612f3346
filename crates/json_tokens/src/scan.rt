// Bytes of a text, blanks and digits, and what stands between the parts of a list (RFC 8259, section 2).
ghost use Rattle.std.specs.Prelude.{◌≡◌, ◌+◌, ◌<◌, get_or};
ghost use Rattle.json_tokens.specs.Scan.{blank, digit, past_while, StopsAt, after, past_colon};

use super::Step;

// The byte at a place, and 0 past the end. No token of JSON has the byte 0.
pub fn byte(s: &[u8], at: usize) -> u8
    ensures { result ≡ get_or s.now at 0 }
{
    s.get(at).copied().unwrap_or(0)
}

// The blanks of JSON alone: `is_ascii_whitespace` takes the form feed, too. By four `==`, of which the compiler makes
// one test. By a `matches!` it makes three jumps, and an object of short members took 1.12 times the instructions.
fn is_blank(b: u8) -> bool
    ensures { result ≡ blank b }
{
    (b == b' ') | (b == b'\t') | (b == b'\n') | (b == b'\r')
}

// Past the bytes at a place that pass a test.
#[inline(always)]
pub fn past_while<F: Fn(u8) -> bool>(s: &[u8], at: usize, passes: F) -> usize
    requires { F.IsAlwaysCallable passes }
    ensures { StopsAt (F.post passes) s.now at result }
{
    let mut k = at;
    // while: with `position` over the bytes behind, arrays of numbers took a tenth longer to read.
    while k < s.len() && passes(s[k]) {
        k += 1;
    }
    k
}

// Past the blanks at a place.
pub fn blanks(s: &[u8], at: usize) -> usize
    ensures { result ≡ past_while blank s.now at }
{
    past_while(s, at, is_blank)
}

// Past the digits at a place.
pub fn digits(s: &[u8], at: usize) -> usize
    ensures { result ≡ past_while digit s.now at }
{
    past_while(s, at, |b| b.is_ascii_digit())
}

// What follows an element: a comma, with the place of the next element, or the closing bracket.
pub fn after_item(s: &[u8], at: usize, close: u8) -> Step
    requires { 0 < close }
    ensures { result ≡ after s.now close at }
{
    let c = blanks(s, at);
    let b = byte(s, c);
    if b == close {
        return Step::End(c + 1);
    }
    if b == b',' {
        Step::More(blanks(s, c + 1))
    } else {
        Step::Wrong
    }
}

// Past the colon after a member's name.
pub fn colon(s: &[u8], at: usize) -> Option<usize>
    ensures { result ≡ past_colon s.now at }
{
    let c = blanks(s, at);
    let b = byte(s, c);
    if b == b':' {
        Some(blanks(s, c + 1))
    } else {
        None
    }
}
