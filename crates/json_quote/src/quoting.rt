// A string of JSON, put into a lent buffer.
ghost use Rattle.std.specs.Prelude.{◌≡◌, ◌+◌, ◌≤◌, ◌<◌, length};
ghost use Rattle.laws.specs.Written.{Puts};
ghost use Rattle.json_quote.specs.Quoted.{hex_of, escaped, quoted};

use octets::put;

// A hexadecimal digit, of which the letters are lower case.
fn hex(n: u8) -> u8
    requires { n < 16 }
    ensures { result ≡ hex_of n }
{
    if n < 10 { n + b'0' } else { n - 10 + b'a' }
}

// The bytes of s, from index at of out on. The answer is the index at which they end.
fn put_run(out: &mut [u8], at: usize, s: &[u8]) -> usize
    requires { at + length s.now ≤ length out.old }
    ensures { Puts out.old at s.now out.new result }
{
    put(out, at, s);
    at + s.len()
}

// An octet within a string. The answer is the index at which it ends.
fn put_octet(out: &mut [u8], at: usize, b: u8) -> usize
    requires { at + length (escaped b) ≤ length out.old }
    ensures { Puts out.old at (escaped b) out.new result }
{
    if b == b'"' {
        return put_run(out, at, b"\\\"");
    }
    if b == b'\\' {
        return put_run(out, at, b"\\\\");
    }
    if b < 0x20 {
        let high = hex(b / 16);
        return put_run(out, at, &[b'\\', b'u', b'0', b'0', high, hex(b % 16)]);
    }
    put_run(out, at, &[b])
}

// The string of x, from index at of out on. The answer is the index at which it ends.
pub fn put_quoted(out: &mut [u8], at: usize, x: &[u8]) -> usize
    requires { at + length (quoted x.now) ≤ length out.old }
    ensures { Puts out.old at (quoted x.now) out.new result }
{
    put(out, at, b"\"");
    let mut k = at + 1;
    for b in x {
        k = put_octet(out, k, *b);
    }
    put(out, k, b"\"");
    k + 1
}
