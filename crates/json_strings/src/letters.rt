// Characters that are more than a byte: UTF-8 (RFC 3629, section 4).
ghost use Rattle.std.specs.Prelude.{◌≡◌, ◌+◌, ◌*◌, ◌≤◌, ◌<◌, length};
ghost use Rattle.json_strings.specs.Text.{least_second, most_second, second_at, tail_at, more_bits, two_at, three_at, four_at};
ghost use Rattle.json_strings.specs.Text.{long_at, wide_at};
ghost use Rattle.json_strings.specs.Sizes.{is_tail, is_second};

use super::Unit;
use json_tokens::byte;

// The least of the bytes that may stand second, by the first; and the most. Two functions of two tests each: as one
// `match` that answers both, the compiler makes a jump of it, and here it chooses with no branch.
fn least_second(b: u8) -> u8
    ensures { result ≡ least_second b }
{
    if b == 0xE0 {
        return 0xA0;
    }
    if b == 0xF0 { 0x90 } else { 0x80 }
}

fn most_second(b: u8) -> u8
    ensures { result ≡ most_second b }
{
    if b == 0xED {
        return 0x9F;
    }
    if b == 0xF4 { 0x8F } else { 0xBF }
}

// With a way out at the first test, as no byte past the end passes it: the compiler then reads the second byte once. By
// `&` it read it twice, and strings of characters of two bytes took 1.14 times the instructions.
pub fn is_second(a: u8, b: u8) -> bool
    ensures { result ≡ is_second a b }
{
    least_second(a) <= b && b <= most_second(a)
}

pub fn is_tail(b: u8) -> bool
    ensures { result ≡ is_tail b }
{
    (0x80 <= b) & (b <= 0xBF)
}

fn second_at(s: &[u8], at: usize) -> bool
    requires { at ≤ length s.now }
    ensures { result ≡ second_at s.now at }
{
    is_second(byte(s, at), byte(s, at + 1))
}

fn tail_at(s: &[u8], at: usize) -> bool
    ensures { result ≡ tail_at s.now at }
{
    is_tail(byte(s, at))
}

// A number and the six bits of one byte more.
fn more_bits(n: u32, b: u8) -> u32
    requires { n < 1048576 }
    ensures { (result ≡ more_bits n b) × (result < 64 * (n + 1)) }
{
    64 * n + b as u32 % 64
}

// The number of a character of two bytes, of three and of four.
fn two(s: &[u8], at: usize) -> u32
    requires { at ≤ length s.now }
    ensures { result ≡ two_at s.now at }
{
    more_bits(byte(s, at) as u32 % 32, byte(s, at + 1))
}

fn three(s: &[u8], at: usize) -> u32
    requires { at ≤ length s.now }
    ensures { result ≡ three_at s.now at }
{
    let n = more_bits(byte(s, at) as u32 % 16, byte(s, at + 1));
    more_bits(n, byte(s, at + 2))
}

fn four(s: &[u8], at: usize) -> u32
    requires { at ≤ length s.now }
    ensures { result ≡ four_at s.now at }
{
    let n = more_bits(byte(s, at) as u32 % 8, byte(s, at + 1));
    let m = more_bits(n, byte(s, at + 2));
    more_bits(m, byte(s, at + 3))
}

fn long(s: &[u8], at: usize) -> Unit
    requires { at ≤ length s.now }
    ensures { result ≡ long_at s.now at }
{
    let a = byte(s, at);
    if !tail_at(s, at + 2) {
        return Unit::Ill;
    }
    if a < 0xF0 {
        return Unit::Code(three(s, at), at + 3);
    }
    if !tail_at(s, at + 3) {
        return Unit::Ill;
    }
    if a < 0xF5 {
        Unit::Code(four(s, at), at + 4)
    } else {
        Unit::Ill
    }
}

// The character at a place. By hand, as the library's `from_utf8` judges a whole slice, and here a string goes on.
pub fn wide(s: &[u8], at: usize) -> Unit
    requires { at ≤ length s.now }
    ensures { result ≡ wide_at s.now at }
{
    let a = byte(s, at);
    if a < 0xC2 {
        return Unit::Ill;
    }
    if !second_at(s, at) {
        return Unit::Ill;
    }
    if a < 0xE0 {
        Unit::Code(two(s, at), at + 2)
    } else {
        long(s, at)
    }
}
