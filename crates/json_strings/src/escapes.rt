// What follows a backslash in a string (RFC 8259, section 7).
ghost use Rattle.std.specs.Prelude.{◌≡◌, ◌+◌, ◌≤◌, ◌<◌, length};
ghost use Rattle.json_tokens.specs.Scan.{digit, after};
ghost use Rattle.json_strings.specs.Text.{told, escape_of, nibble_of, nibble_at, hex_at, escape_at, latin_at};

use super::Unit;
use json_tokens::byte;

// The number of the character that the letter after a backslash stands for.
fn escape_of(b: u8) -> Option<u32>
    ensures { result ≡ told (escape_of b) }
{
    match b {
        b'"' => Some(0x22),
        b'\\' => Some(0x5C),
        b'/' => Some(0x2F),
        b'b' => Some(0x08),
        b'f' => Some(0x0C),
        b'n' => Some(0x0A),
        b'r' => Some(0x0D),
        b't' => Some(0x09),
        _ => None,
    }
}

// A hexadecimal digit, 16 for any other letter. A number, and no Option: the digits that are tested already are added up
// with no further test (`quad`).
pub fn nibble_of(b: u8) -> u32
    ensures { (result ≡ nibble_of b) × (result ≤ 16) }
{
    if b < b'0' {
        return 16;
    }
    if b <= b'9' {
        return (b - b'0') as u32;
    }
    if b < b'A' {
        return 16;
    }
    if b <= b'F' {
        return (b - b'A') as u32 + 10;
    }
    if b < b'a' {
        return 16;
    }
    if b <= b'f' {
        return (b - b'a') as u32 + 10;
    }
    16
}

fn nibble_at(s: &[u8], at: usize) -> u32
    ensures { (result ≡ nibble_at s.now at) × (result ≤ 16) }
{
    nibble_of(byte(s, at))
}

fn hex(s: &[u8], at: usize) -> Unit
    requires { at ≤ length s.now }
    ensures { result ≡ hex_at s.now at }
{
    let a = nibble_at(s, at);
    if a == 16 {
        return Unit::Ill;
    }
    let b = nibble_at(s, at + 1);
    if b == 16 {
        return Unit::Ill;
    }
    let c = nibble_at(s, at + 2);
    if c == 16 {
        return Unit::Ill;
    }
    let d = nibble_at(s, at + 3);
    if d == 16 {
        return Unit::Ill;
    }
    Unit::Code(4096 * a + 256 * b + 16 * c + d, at + 4)
}

pub fn escape(s: &[u8], at: usize) -> Unit
    requires { at ≤ length s.now }
    ensures { result ≡ escape_at s.now at }
{
    let b = byte(s, at);
    if b == b'u' {
        return hex(s, at + 1);
    }
    let Some(e) = escape_of(b) else {
        return Unit::Ill;
    };
    Unit::Code(e, at + 1)
}

// The number of the character that is written at a place as \u00 and two digits, 256 for any other: what escapes each
// letter writes so. A number, and no Option: four of them are told by one test, with no branch between (json_base64).
pub fn latin(s: &[u8], at: usize) -> u32
    ensures { result ≡ latin_at s.now at }
{
    if byte(s, at) != b'\\' {
        return 256;
    }
    if byte(s, at + 1) != b'u' {
        return 256;
    }
    if byte(s, at + 2) != b'0' {
        return 256;
    }
    if byte(s, at + 3) != b'0' {
        return 256;
    }
    let h = nibble_at(s, at + 4);
    if h == 16 {
        return 256;
    }
    let l = nibble_at(s, at + 5);
    if l == 16 {
        return 256;
    }
    16 * h + l
}
